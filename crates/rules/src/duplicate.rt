// Step 18, duplicate: what (0 record, 1 ack, 2 update, 3 uack), store, key, role.
ghost use Rattle.std.specs.Prelude.{◌≡◌};
ghost use Rattle.protocol.specs.Refusal.{told};
ghost use Rattle.protocol.specs.Step.{rule_of};
ghost use Rattle.protocol.specs.declared.Step.TheVariants.{Duplicate};
ghost use Rattle.unbroken.specs.Bounds.{Bounds};

use crate::guards::one_more;
use crate::lose::{copies, copy_in_flight, set_copies};
use protocol::State;
use protocol::refusal::Refusal;

/// One more copy, up to 15, and no change at 15.
#[tactic(auto, unfolding(protocol::specs::Step::rule_of, protocol::specs::Duplicate::duplicated))]
pub(crate) fn duplicate(
    m: &mut State,
    what: u8,
    store: u8,
    key: u8,
    role: u8,
) -> Result<(), Refusal>
    requires { Bounds m.old }
    ensures { told result m.new ≡ rule_of m.old (Duplicate what store key role) }
{
    let (p, v) = copy_in_flight(m, what, store, key, role)?;
    let n = copies(m, what, p, v);
    set_copies(m, what, p, v, one_more(n));
    Ok(())
}
