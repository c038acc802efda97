//! What a row asks, printed as numbers, a space before each. A small letter looks into the state.

use crate::row::{Place, Row, view_at};
use edge::Fields;
use machine::Machine;
use protocol::refusal::answer_number;
use protocol::sets::is_in;
use protocol::{Entry, State, View};
use runs::Counts;
use std::io;
use std::io::Write;

/// The step's number.
fn step<W: Write>(out: &mut W, m: &State, row: &Row) -> io::Result<()> {
    if let Some(step) = row.step() {
        let after = Machine { state: *m }.step(step);
        write!(out, " {}", answer_number(after.answer))?;
    }
    Ok(())
}

/// The number and the count.
fn drain<W: Write>(out: &mut W, m: &State) -> io::Result<()> {
    match drain::drain(*m).taken {
        Ok(count) => write!(out, " 0 {count}"),
        Err(refusal) => write!(out, " {} 0", u8::from(refusal)),
    }
}

/// The walk's number, how many keys, and the keys.
fn walk<W: Write>(out: &mut W, m: &State, row: &Row) -> io::Result<()> {
    match walk::walk(m, row.numbers[1]) {
        Ok(met) => {
            let keys = met.keys.as_slice();
            write!(out, " 0 {}{}", keys.len(), Fields(keys))
        }
        Err(refusal) => write!(out, " {} 0", u8::from(refusal)),
    }
}

fn view<W: Write>(out: &mut W, w: &View) -> io::Result<()> {
    let changed = u8::from(w.changed);
    write!(
        out,
        " {} {} {} {} {changed} {}",
        w.phase, w.word, w.store, w.viewlink, w.links[0]
    )
}

fn entry<W: Write>(out: &mut W, e: &Entry) -> io::Result<()> {
    write!(out, " {} {} {}", u8::from(e.status), e.destination, e.own)
}

fn place<W: Write>(out: &mut W, m: &State, place: Place) -> io::Result<()> {
    let at = place.number();
    let link = m.shelves[place.p].viewlinks[place.v];
    let numbers = [m.records[at], m.acks[at], m.updates[at], m.uacks[at], link];
    write!(out, "{}", Fields(&numbers))
}

fn stored<W: Write>(out: &mut W, m: &State, place: Place) -> io::Result<()> {
    let shelf = &m.shelves[place.p];
    for set in [shelf.held, shelf.kept, shelf.acksowed, shelf.uacksowed] {
        write!(out, " {}", u8::from(is_in(set, place.v)))?;
    }
    let c = &m.contents[place.number()];
    write!(
        out,
        " {} {} {} {}",
        shelf.keptlinks[place.v], c.asserter, c.word, c.causes
    )
}

/// A run with so many bytes of a buffer of four, each 99 before: its number, its steps and those taken, the counts of its state, and
/// what is in the four bytes after.
fn run<W: Write>(out: &mut W, row: &Row) -> io::Result<()> {
    let mut numbers = [99; 4];
    let room = usize::from(row.numbers[1]);
    let (Some(book), Some(lent)) = (row.book(), numbers.get_mut(..room)) else {
        return Ok(());
    };
    let after = runs::run(book, lent);
    match after.ran {
        Ok(Counts { steps, taken }) => write!(out, " 0 {steps} {taken}")?,
        Err(refusal) => write!(out, " {} 0 0", u8::from(refusal))?,
    }
    let m = after.state;
    write!(
        out,
        "{}{}",
        Fields(&[m.stores, m.actors, m.made]),
        Fields(&numbers)
    )
}

// Stays a match on bytes: the letters are the table's text, and every other byte is a row that asks nothing.
pub(crate) fn answer<W: Write>(out: &mut W, m: &State, row: &Row) -> io::Result<()> {
    let [_, a, b, c, ..] = row.numbers;
    match row.letter {
        b'B' => write!(out, " {}", u8::from(broken::is_broken(m))),
        b'T' => step(out, m, row),
        b'D' => drain(out, m),
        b'W' => walk(out, m, row),
        b'K' => run(out, row),
        b'v' => view(out, &m.views[view_at(a, b)]),
        b'e' => entry(out, &m.entries[view_at(a, b)]),
        b'f' => place(out, m, Place::new(a, b, c)),
        b's' => stored(out, m, Place::new(a, b, c)),
        _ => Ok(()),
    }
}
