// Step 12, coordinator takes uack: store, key, role.
ghost use Rattle.std.specs.Prelude.{◌≡◌};
ghost use Rattle.protocol.specs.Refusal.{told};
ghost use Rattle.protocol.specs.Step.{rule_of};
ghost use Rattle.protocol.specs.declared.Step.TheVariants.{TakeUack};
ghost use Rattle.unbroken.specs.Bounds.{Bounds};

use crate::guards::{store_in, view_in};
use protocol::refusal::Refusal;
use protocol::{State, Status};

/// A copy in flight, which goes. If waiting and the store is the destination: done.
#[tactic(auto, unfolding(protocol::specs::Step::rule_of, protocol::specs::TakeUack::take_uack_no, protocol::specs::TakeUack::uack_taken))]
pub(crate) fn take_uack(m: &mut State, store: u8, key: u8, role: u8) -> Result<(), Refusal>
    requires { Bounds m.old }
    ensures { told result m.new ≡ rule_of m.old (TakeUack store key role) }
{
    let p = store_in(m, store)?;
    let v = view_in(m, key, role)?;
    let at = p * 32 + v;
    if m.uacks[at] == 0 {
        return Err(Refusal::NotReady);
    }
    m.uacks[at] -= 1;
    let e = &mut m.entries[v];
    if e.status == Status::Waiting && e.destination == store {
        e.status = Status::Done;
    }
    Ok(())
}
