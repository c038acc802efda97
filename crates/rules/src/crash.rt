// Step 15, crash: store.
ghost use Rattle.std.specs.Prelude.{◌≡◌};
ghost use Rattle.protocol.specs.Refusal.{told};
ghost use Rattle.protocol.specs.Step.{rule_of};
ghost use Rattle.protocol.specs.Stores.{thrown_back};
ghost use Rattle.protocol.specs.declared.Step.TheVariants.{Crash};
ghost use Rattle.unbroken.specs.Bounds.{Bounds};

use crate::guards::store_in;
use crate::places::sweep;
use protocol::refusal::Refusal;
use protocol::{State, Store};

/// Back to the checkpoint; the notes are dropped.
fn throw_back(s: &mut Store)
    ensures { s.new ≡ thrown_back s.old }
{
    s.up = false;
    s.held = s.kept;
    s.viewlinks = s.keptlinks;
    s.acksowed = 0;
    s.uacksowed = 0;
}

/// Up becomes down.
#[tactic(auto, unfolding(protocol::specs::Step::rule_of, protocol::specs::Crash::crash_no, protocol::specs::Crash::crashed))]
pub(crate) fn crash(m: &mut State, store: u8) -> Result<(), Refusal>
    requires { Bounds m.old }
    ensures { told result m.new ≡ rule_of m.old (Crash store) }
{
    let p = store_in(m, store)?;
    if !m.shelves[p].up {
        return Err(Refusal::StoreDown);
    }
    throw_back(&mut m.shelves[p]);
    sweep(m, p);
    Ok(())
}
