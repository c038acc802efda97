//! For support staff, who must see everything: the run of a book from standard input, the whole machine,
//! the walk of each key, then the drain, and the machine and the walks again.

#![tactic(auto)]

use edge::Fields;
use machine::Machine;
use protocol::refusal::Refusal;
use protocol::{State, Step};
use runs::Counts;
use std::io;
use std::io::Write;
use views::Lines;

mod views;

/// `W`, the key, 0, how many keys the walk met, its lookups and the keys, or the key and the refusal's number.
fn walk_line<W: Write>(out: &mut W, m: &State, key: u8) -> io::Result<()> {
    match walk::walk(m, key) {
        Ok(met) => {
            let keys = met.keys.as_slice();
            writeln!(
                out,
                "W {key} 0 {} {}{}",
                keys.len(),
                met.lookups,
                Fields(keys)
            )
        }
        Err(refusal) => writeln!(out, "W {key} {}", u8::from(refusal)),
    }
}

/// The machine, then the walk of each key made, and of the one behind the last, which isn't in the machine.
fn state<W: Write>(out: &mut W, m: &State) -> io::Result<()> {
    write!(out, "{}", Lines(m))?;
    for key in 0..=m.made.min(16) {
        walk_line(out, m, key)?;
    }
    Ok(())
}

/// Takes step 16 for each store that is down.
fn restart_all(m: &State) -> State {
    let mut machine = Machine { state: *m };
    for (store, shelf) in (0..m.stores).zip(m.shelves.iter()) {
        if !shelf.up {
            machine = machine.step(Step::Restart { store }).machine;
        }
    }
    machine.state
}

/// The refusal's number, or 0, and the count of steps taken.
fn drain_line<W: Write>(out: &mut W, taken: Result<u16, Refusal>) -> io::Result<()> {
    match taken {
        Ok(count) => writeln!(out, "drain 0 {count}"),
        Err(refusal) => writeln!(out, "drain {} 0", u8::from(refusal)),
    }
}

/// Drains; where a store is down, restarts first what is.
fn drained<W: Write>(out: &mut W, m: &State) -> io::Result<()> {
    let mut after = drain::drain(*m);
    drain_line(out, after.taken)?;
    if matches!(after.taken, Err(Refusal::StoreDown)) {
        after = drain::drain(restart_all(m));
        write!(out, "restarted ")?;
        drain_line(out, after.taken)?;
    }
    state(out, &after.state)
}

fn refuse<W: Write>(out: &mut W, refusal: Refusal) -> io::Result<()> {
    writeln!(out, "run {} 0 0", u8::from(refusal))
}

fn inspect<W: Write>(out: &mut W, book: &[u8]) -> io::Result<()> {
    let mut numbers = [0; 4096];
    let after = runs::run(book, &mut numbers);
    match after.ran {
        Ok(Counts { steps, taken }) => {
            let n = usize::from(steps).min(numbers.len());
            writeln!(out, "run 0 {steps} {taken}")?;
            writeln!(out, "answers{}", Fields(&numbers[..n]))?;
            state(out, &after.state)?;
            drained(out, &after.state)
        }
        Err(refusal) => refuse(out, refusal),
    }
}

fn main(rt: HostRuntime) -> io::Result<()> {
    let mut out = io::writer(&rt);
    match edge::book(rt.reader())? {
        Some(book) => inspect(&mut out, book.as_slice()),
        None => refuse(&mut out, Refusal::MalformedBook),
    }
}
