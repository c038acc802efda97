//! The 2004 protocol's provenance store: one message is received by value, and back come the store and what is answered.

#![tactic(auto)]

ghost use Rattle.std.specs.Prelude.{◌≡◌};
ghost use Rattle.activities.specs.Complete.{complete as complete_of};
ghost use Rattle.activities.specs.Outcome.{told_received};
ghost use Rattle.activities.specs.Receive.{receive as receive_of};
ghost use Rattle.activities.specs.Store.{empty_store};

use activities::{Activity, Exchange, Message, Received, Store};

mod message;
mod rows;

/// Empty tables.
pub fn empty() -> Store
    ensures { result ≡ empty_store }
{
    Store {
        used: 0,
        exchanges: [message::fresh(Activity::default()); 16],
    }
}

/// Whether both sides of an activity have sent all that they announced.
pub fn complete(e: Exchange) -> bool
    ensures { result ≡ complete_of e }
{
    rows::complete(&e)
}

/// One message: refused with 17 or 18 and nothing changed, or put where it belongs and acknowledged.
// Inlined: a caller clears the place of what comes back, 3,020 bytes, where LLVM doesn't see that it is written whole.
#[inline(always)]
pub fn receive(s: Store, m: Message) -> Received
    ensures { told_received result ≡ receive_of s m }
{
    let mut store = s;
    let answer = message::take(&mut store, &m);
    Received { store, answer }
}
