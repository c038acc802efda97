// A store of the 2004 protocol, and messages for it.
ghost use Rattle.std.specs.Prelude.{◌≡◌};
ghost use Rattle.bench.specs.Turns.{turns, summed};
ghost use Rattle.bench.specs.Received.{exchanged as exchanged_of, invocation as invocation_of, negotiation as negotiation_of, filled as filled_of, receive_told};

use crate::told;
use crate::turns::calls;
use activities::{Activity, Message, Said, Store};

/// An activity of client 1 and service 2.
fn exchanged(session: u32) -> Activity
    ensures { result ≡ exchanged_of session }
{
    Activity {
        session,
        nonce: 0,
        thread: 0,
        client: 1,
        service: 2,
    }
}

fn invocation(session: u32) -> Message
    ensures { result ≡ invocation_of session }
{
    Message {
        sender: 1,
        activity: exchanged(session),
        said: Said::Invocation { extra: 0, word: 7 },
    }
}

fn negotiation(session: u32, extra: u32) -> Message
    ensures { result ≡ negotiation_of session extra }
{
    Message {
        sender: 1,
        activity: exchanged(session),
        said: Said::Negotiation {
            list: 0,
            accepted: 0,
            extra,
        },
    }
}

/// The store after the client's invocation in each of so many activities.
#[tactic(auto, unfolding(crate::specs::Received::filled))]
pub(crate) fn filled(count: u32) -> Store
    ensures { result ≡ filled_of count }
{
    let mut store = first_store::empty();
    for session in 0..count {
        store = first_store::receive(store, invocation(session)).store;
    }
    store
}

/// The client's negotiation of an activity, with another field each turn.
pub(crate) fn turns(s: Store, session: u32, times: u32) -> u32
    ensures { result ≡ turns (λ left sum. summed sum (receive_told (negotiation_of session left) s)) times 0 }
{
    calls(times, |left| {
        let received = first_store::receive(s, negotiation(session, left));
        let number = match received.answer {
            Ok(_) => 0,
            Err(refusal) => u16::from(u8::from(refusal)),
        };
        told(number, received.store.used)
    })
}
