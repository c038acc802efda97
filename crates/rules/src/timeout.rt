// Step 5, timeout: actor, store.
ghost use Rattle.std.specs.Prelude.{◌≡◌};
ghost use Rattle.protocol.specs.Refusal.{told};
ghost use Rattle.protocol.specs.Step.{rule_of};
ghost use Rattle.protocol.specs.declared.Step.TheVariants.{Timeout};
ghost use Rattle.unbroken.specs.Bounds.{Bounds};

use crate::guards::head_in_phase;
use protocol::refusal::Refusal;
use protocol::sets::is_in;
use protocol::{State, phase};

/// Head in phase 3; the store is in the list. `NotListed` for the current store is given only at three tries. Another one becomes
/// current, and changed is set. Phase 2.
#[tactic(auto, unfolding(protocol::specs::Step::rule_of, protocol::specs::Timeout::timeout_no, protocol::specs::Timeout::timed_out))]
pub(crate) fn time_out(m: &mut State, actor: u8, store: u8) -> Result<(), Refusal>
    requires { Bounds m.old }
    ensures { told result m.new ≡ rule_of m.old (Timeout actor store) }
{
    if m.stores <= store {
        return Err(Refusal::NotInMachine);
    }
    let v = head_in_phase(m, actor, phase::SENT)?;
    if !is_in(u32::from(m.lists[actor as usize]), store as usize) {
        return Err(Refusal::NotListed);
    }
    let w = &mut m.views[v];
    if w.store != store {
        w.store = store;
        w.changed = true;
        w.tries = 0;
    } else if w.tries < 3 {
        w.tries += 1;
    } else {
        return Err(Refusal::NotListed);
    }
    w.phase = phase::READY;
    Ok(())
}
