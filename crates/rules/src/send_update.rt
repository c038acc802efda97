// Step 10, send update: key, role.
ghost use Rattle.std.specs.Prelude.{◌≡◌};
ghost use Rattle.protocol.specs.Refusal.{told};
ghost use Rattle.protocol.specs.Step.{rule_of};
ghost use Rattle.protocol.specs.declared.Step.TheVariants.{SendUpdate};
ghost use Rattle.unbroken.specs.Bounds.{Bounds};

use crate::guards::{one_more, view_in};
use protocol::refusal::Refusal;
use protocol::{State, Status};

/// To-send. One update copy to the destination; waiting.
#[tactic(auto, unfolding(protocol::specs::Step::rule_of, protocol::specs::SendUpdate::send_update_no, protocol::specs::SendUpdate::update_sent))]
pub(crate) fn send_update(m: &mut State, key: u8, role: u8) -> Result<(), Refusal>
    requires { Bounds m.old }
    ensures { told result m.new ≡ rule_of m.old (SendUpdate key role) }
{
    let v = view_in(m, key, role)?;
    let e = &mut m.entries[v];
    if e.status != Status::ToSend {
        return Err(Refusal::NotReady);
    }
    e.status = Status::Waiting;
    let at = e.destination as usize * 32 + v;
    m.updates[at] = one_more(m.updates[at]);
    Ok(())
}
