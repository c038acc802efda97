// Step 7, actor takes ack: store, key, role.
ghost use Rattle.std.specs.Prelude.{◌≡◌, ◌<◌};
ghost use Rattle.protocol.specs.Refusal.{told};
ghost use Rattle.protocol.specs.Step.{rule_of};
ghost use Rattle.protocol.specs.TakeAck.{accepts};
ghost use Rattle.protocol.specs.declared.Step.TheVariants.{TakeAck};
ghost use Rattle.unbroken.specs.Bounds.{Bounds};

use crate::guards::{store_in, view_in};
use protocol::refusal::Refusal;
use protocol::{State, phase};

/// The view is its queue's head, in phase 3, and the store is its current one.
fn accepts(m: &State, store: u8, v: usize) -> bool
    requires bounds { Bounds m.now }
    requires view { v < 32 }
    ensures { result ≡ accepts m.now store v }
{
    let w = &m.views[v];
    let queue = &m.queues[w.actor as usize];
    queue.len != 0 && queue.views[0] as usize == v && w.phase == phase::SENT && w.store == store
}

/// A copy in flight, which goes. If the view accepts it: phase 4.
#[tactic(auto, unfolding(protocol::specs::Step::rule_of, protocol::specs::TakeAck::take_ack_no, protocol::specs::TakeAck::ack_taken))]
pub(crate) fn take_ack(m: &mut State, store: u8, key: u8, role: u8) -> Result<(), Refusal>
    requires { Bounds m.old }
    ensures { told result m.new ≡ rule_of m.old (TakeAck store key role) }
{
    let p = store_in(m, store)?;
    let v = view_in(m, key, role)?;
    let at = p * 32 + v;
    if m.acks[at] == 0 {
        return Err(Refusal::NotReady);
    }
    let accepted = accepts(m, store, v);
    m.acks[at] -= 1;
    if accepted {
        m.views[v].phase = phase::ACKNOWLEDGED;
    }
    Ok(())
}
