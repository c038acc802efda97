//! What a row changes: a slot, or by a step or the drain the whole state.
ghost use Rattle.std.specs.Prelude.{◌<◌};

use crate::row::{Place, Row, view_at};
use machine::Machine;
use protocol::sets::with;
use protocol::{Contents, Entry, Links, Message, Repair, Setup, State, Status, View};

/// Setup M: three stores, actor 0 home 0 list 5, actor 1 home 1 list 6.
pub(crate) fn fresh() -> State {
    let setup = Setup {
        stores: 3,
        actors: 2,
        homes: [0, 1, 0, 0, 0, 0, 0, 0],
        lists: [5, 6, 0, 0, 0, 0, 0, 0],
    };
    Machine::setup(setup).machine.state
}

fn one_link(link: u8) -> [u8; 16] {
    [link, 0, 0, 0, 0, 0, 0, 0, 0, 0, 0, 0, 0, 0, 0, 0]
}

fn counts(m: &mut State, row: &Row) {
    let [_, stores, actors, made, ..] = row.numbers;
    m.stores = stores;
    m.actors = actors;
    m.made = made;
}

fn store_up(m: &mut State, row: &Row) {
    let [_, store, up, ..] = row.numbers;
    m.shelves[usize::from(store % 8)].up = up == 1;
}

fn actor(m: &mut State, row: &Row) {
    let [_, actor, home, list, ..] = row.numbers;
    let a = usize::from(actor % 8);
    m.homes[a] = home;
    m.lists[a] = list;
}

fn queue(m: &mut State, row: &Row) {
    let [_, actor, len, place, view, ..] = row.numbers;
    let queue = &mut m.queues[usize::from(actor % 8)];
    queue.len = len;
    queue.views[usize::from(place % 16)] = view;
}

/// The link is that of cause 0.
fn view(m: &mut State, row: &Row) {
    let [
        _,
        key,
        role,
        actor,
        phase,
        word,
        store,
        viewlink,
        changed,
        causes,
        link,
        tries,
        ..
    ] = row.numbers;
    m.views[view_at(key, role)] = View {
        actor,
        phase,
        store,
        viewlink,
        changed: changed == 1,
        tries,
        causes: u16::from(causes),
        word: u32::from(word),
        links: one_link(link),
    };
}

fn message(m: &mut State, row: &Row) {
    let [_, key, flying, own, word, ..] = row.numbers;
    m.messages[usize::from(key % 16)] = Message {
        flying: flying == 1,
        own,
        word: u32::from(word),
    };
}

fn repair(m: &mut State, row: &Row) {
    let [_, key, role, flying, destination, own, ..] = row.numbers;
    m.repairs[view_at(key, role)] = Repair {
        flying: flying == 1,
        destination,
        own,
    };
}

fn status(number: u8) -> Status {
    match number {
        0 => Status::Nothing,
        1 => Status::ToSend,
        2 => Status::Waiting,
        _ => Status::Done,
    }
}

fn entry(m: &mut State, row: &Row) {
    let [_, key, role, number, destination, own, ..] = row.numbers;
    m.entries[view_at(key, role)] = Entry {
        status: status(number),
        destination,
        own,
    };
}

/// A set with the view v in it where the number is 1, and without it else.
fn put(set: u32, v: usize, number: u8) -> u32
    requires { v < 32 }
{
    let joined = with(set, v);
    if number == 1 {
        joined
    } else {
        joined ^ (1 << v)
    }
}

fn contents(m: &mut State, row: &Row) {
    let [_, store, key, role, held, asserter, word, causes, kept, ..] = row.numbers;
    let place = Place::new(store, key, role);
    m.contents[place.number()] = Contents {
        asserter,
        causes: u16::from(causes),
        word: u32::from(word),
    };
    let shelf = &mut m.shelves[place.p];
    shelf.held = put(shelf.held, place.v, held);
    shelf.kept = put(shelf.kept, place.v, kept);
}

fn notes(m: &mut State, row: &Row) {
    let [_, store, key, role, acks, uacks, ..] = row.numbers;
    let place = Place::new(store, key, role);
    let shelf = &mut m.shelves[place.p];
    shelf.acksowed = put(shelf.acksowed, place.v, acks);
    shelf.uacksowed = put(shelf.uacksowed, place.v, uacks);
}

/// The link of cause 0 in the sender's contents.
fn cause_link(m: &mut State, row: &Row) {
    let [_, store, key, link, ..] = row.numbers;
    let at = (usize::from(store) * 16 + usize::from(key)) % 128;
    m.links[at] = Links { to: one_link(link) };
}

fn viewlinks(m: &mut State, row: &Row) {
    let [_, store, key, role, working, checkpointed, ..] = row.numbers;
    let place = Place::new(store, key, role);
    let shelf = &mut m.shelves[place.p];
    shelf.viewlinks[place.v] = working;
    shelf.keptlinks[place.v] = checkpointed;
}

fn copies(m: &mut State, row: &Row) {
    let [_, store, key, role, records, acks, updates, uacks, ..] = row.numbers;
    let at = Place::new(store, key, role).number();
    m.records[at] = records;
    m.acks[at] = acks;
    m.updates[at] = updates;
    m.uacks[at] = uacks;
}

fn step(m: &mut State, row: &Row) {
    if let Some(step) = row.step() {
        *m = Machine { state: *m }.step(step).machine.state;
    }
}

// Stays a match on bytes: the letters are the table's text, and every other byte is a row that changes nothing.
pub(crate) fn take(m: &mut State, row: &Row) {
    match row.letter {
        b'M' => counts(m, row),
        b'U' => store_up(m, row),
        b'A' => actor(m, row),
        b'Q' => queue(m, row),
        b'V' => view(m, row),
        b'P' => message(m, row),
        b'R' => repair(m, row),
        b'E' => entry(m, row),
        b'S' => contents(m, row),
        b'C' => cause_link(m, row),
        b'L' => viewlinks(m, row),
        b'N' => notes(m, row),
        b'F' => copies(m, row),
        b'T' => step(m, row),
        b'D' => *m = drain::drain(*m).state,
        b'O' => *m = Machine::empty().state,
        _ => {}
    }
}
