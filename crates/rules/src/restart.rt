// Step 16, restart: store.
ghost use Rattle.std.specs.Prelude.{◌≡◌};
ghost use Rattle.protocol.specs.Refusal.{told};
ghost use Rattle.protocol.specs.Step.{rule_of};
ghost use Rattle.protocol.specs.declared.Step.TheVariants.{Restart};
ghost use Rattle.unbroken.specs.Bounds.{Bounds};

use crate::guards::store_in;
use protocol::State;
use protocol::refusal::Refusal;

/// Down becomes up.
#[tactic(auto, unfolding(protocol::specs::Step::rule_of, protocol::specs::Restart::restart_no, protocol::specs::Restart::restarted))]
pub(crate) fn restart(m: &mut State, store: u8) -> Result<(), Refusal>
    requires { Bounds m.old }
    ensures { told result m.new ≡ rule_of m.old (Restart store) }
{
    let p = store_in(m, store)?;
    let s = &mut m.shelves[p];
    if s.up {
        return Err(Refusal::StoreUp);
    }
    s.up = true;
    Ok(())
}
