// Step 2, receive: key.
ghost use Rattle.std.specs.Prelude.{◌≡◌, ◌<◌};
ghost use Rattle.protocol.specs.Receive.{received_view};
ghost use Rattle.protocol.specs.Refusal.{told};
ghost use Rattle.protocol.specs.Step.{rule_of};
ghost use Rattle.protocol.specs.declared.Step.TheVariants.{Receive};
ghost use Rattle.unbroken.specs.Bounds.{Bounds};

use crate::guards::view_in;
use crate::send::join;
use protocol::refusal::Refusal;
use protocol::{Message, State, View, phase};

/// The receiver's record: home store, viewlink the own store that was sent, same data, no causes.
fn received_view(m: &State, key: u8) -> View
    requires bounds { Bounds m.now }
    requires there { key < 16 }
    ensures { result ≡ received_view m.now key }
{
    let actor = m.views[key as usize * 2 + 1].actor;
    let sent = &m.messages[key as usize];
    View {
        phase: phase::QUEUED,
        store: m.homes[actor as usize],
        viewlink: sent.own,
        word: sent.word,
        ..View::unset(actor)
    }
}

/// Not yet received. The receiver's record joins the queue, and the message is no longer in flight.
#[tactic(auto, unfolding(protocol::specs::Step::rule_of, protocol::specs::Receive::receive_no, protocol::specs::Receive::received_of))]
pub(crate) fn receive(m: &mut State, key: u8) -> Result<(), Refusal>
    requires { Bounds m.old }
    ensures { told result m.new ≡ rule_of m.old (Receive key) }
{
    let v = view_in(m, key, 1)?;
    if m.views[v].phase != phase::NOT_MADE {
        return Err(Refusal::NotReady);
    }
    let received = received_view(m, key);
    m.views[v] = received;
    join(&mut m.queues[received.actor as usize], v as u8);
    m.messages[key as usize] = Message {
        flying: false,
        own: 0,
        word: 0,
    };
    Ok(())
}
