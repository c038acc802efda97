//! The 2004 protocol's store as a program: messages from standard input are received one by one, and each answer is printed,
//! then every activity that the store holds. Bytes of another form, or more than 65,536 of them, are `refused 10`.

#![tactic(auto)]

ghost use Rattle.std.specs.Prelude.{◌≤◌, length, ◌≡◌};
ghost use Rattle.activities.specs.Form.{count_of, well_formed, messages_from};
ghost use Rattle.activities.specs.Run.{after};
ghost use Rattle.activities.specs.Store.{empty_store};

use activities::Store;
use print::{Answer, Tables};
use std::io;

mod bytes;
mod print;

/// Whether as many messages as the count says stand there, and nothing behind them.
#[tactic(auto, using(crate::proofs::Reading::by_form, crate::proofs::Reading::tested_end, crate::proofs::Reading::tested_more, crate::proofs::Reading::tested_start, crate::proofs::Reading::tested_stop, crate::proofs::Reading::too_short))]
fn well_formed(s: &[u8]) -> bool
    ensures { result ≡ well_formed s.now }
{
    if s.len() < 2 {
        return false;
    }
    let mut at = 2;
    for _ in 0..bytes::count(s) {
        match bytes::next(s, at) {
            Some(next) => at = next,
            None => return false,
        }
    }
    at == s.len()
}

/// The store after the messages; each answer is printed, up to the first that can't be.
#[tactic(auto, using(crate::proofs::Reading::ran_end, crate::proofs::Reading::ran_more, crate::proofs::Reading::ran_start))]
fn run(out: &impl Print, s: &[u8]) -> (Store, io::Result<()>)
    requires { 2 ≤ length s.now }
    ensures { result.0 ≡ after empty_store (messages_from s.now (count_of s.now) 2) }
{
    let mut store = first_store::empty();
    let mut told = Ok(());
    let mut at = 2;
    for _ in 0..bytes::count(s) {
        let received = first_store::receive(store, bytes::message(s, at));
        if told.is_ok() {
            told = println!(out; "{}", Answer(received.answer));
        }
        store = received.store;
        at = bytes::next(s, at).unwrap_or(0);
    }
    (store, told)
}

fn serve(out: &impl Print, s: &[u8]) -> io::Result<()>
    requires { 2 ≤ length s.now }
{
    let (store, told) = run(out, s);
    told?;
    print!(out; "{}", Tables(&store))
}

#[tactic(auto, using(crate::proofs::Reading::long_enough))]
fn main(rt: HostRuntime) -> io::Result<()> {
    match edge::book(rt.reader())? {
        Some(book) if well_formed(book.as_slice()) => serve(&rt, book.as_slice()),
        // Printed, and answered by no call: the store itself refuses with `StoreRefusal` alone.
        _ => println!(rt; "refused 10"),
    }
}
