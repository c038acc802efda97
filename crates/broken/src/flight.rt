// What is in flight and not broken: application messages, repairs with the coordinator's entries, and copies.
ghost use Rattle.std.specs.Prelude.{◌≡◌, ◌&&◌, ◌<◌, eqb, get_or, leb, ltb, length};
ghost use Rattle.broken.specs.Rooms.{record_room, row_within, update_room, within_room};
ghost use Rattle.protocol.specs.Broken.{entry_fine, message_fine, records_fine, repair_fine, updates_fine};
ghost use Rattle.protocol.specs.Slots.{status_number};
ghost use Rattle.protocol.specs.Words.{all, pick, table};

use protocol::{Entry, Message, Repair, State, Status, View};

/// In flight exactly where it is due, which is for a receiver in phase 0; else nothing.
#[tactic(auto, unfolding(protocol::specs::Broken::message_fine))]
fn message_fine(m: &State, k: usize, g: &Message) -> bool
    requires { k < 16 }
    ensures { result ≡ message_fine m.now.stores m.now.made m.now.views k g.now }
{
    let due = k < m.made as usize && m.views[k * 2 + 1].phase == 0;
    if g.flying {
        due && g.own < m.stores
    } else {
        !due && g.own == 0 && g.word == 0
    }
}

#[tactic(auto, unfolding(protocol::specs::Words::all_from))]
pub(crate) fn messages_fine(m: &State) -> bool
    ensures each { result ≡ all (message_fine m.now.stores m.now.made m.now.views) m.now.messages }
    ensures long { length m.now.messages ≡ 16 }
{
    m.messages
        .iter()
        .enumerate()
        .all(|(k, g)| message_fine(m, k, g))
}

/// A destination and an own store: of a settled view, naming stores, or blank.
fn pair_fine(stores: u8, there: bool, w: &View, destination: u8, own: u8) -> bool
    ensures { result ≡ pick there (eqb w.now.phase 5 && ltb destination stores && ltb own stores) (eqb destination 0 && eqb own 0) }
{
    if there {
        w.phase == 5 && destination < stores && own < stores
    } else {
        destination == 0 && own == 0
    }
}

#[tactic(auto, unfolding(protocol::specs::Broken::repair_fine, protocol::specs::Words::all_from))]
pub(crate) fn repairs_fine(m: &State) -> bool
    ensures each { result ≡ all (repair_fine m.now.stores m.now.views) m.now.repairs }
    ensures long { length m.now.repairs ≡ 32 }
{
    m.repairs.iter().enumerate().all(|(v, r)| pair_fine(
        m.stores,
        r.flying,
        &m.views[v],
        r.destination,
        r.own,
    ))
}

/// The coordinator has something for the view.
pub(crate) fn has_entry(e: &Entry) -> bool
    ensures { result ≡ leb 1 (status_number e.now.status) }
{
    e.status != Status::Nothing
}

#[tactic(auto, unfolding(protocol::specs::Broken::entry_fine, protocol::specs::Words::all_from))]
pub(crate) fn entries_fine(m: &State) -> bool
    ensures each { result ≡ all (entry_fine m.now.stores m.now.views) m.now.entries }
    ensures long { length m.now.entries ≡ 32 }
{
    m.entries.iter().enumerate().all(|(v, e)| pair_fine(
        m.stores,
        has_entry(e),
        &m.views[v],
        e.destination,
        e.own,
    ))
}

/// Each place of a row has at most its room. The chain ends at no place, so that many are compared at once.
fn row_within(rooms: &[u8; 32], row: &[u8; 32]) -> bool
    ensures { result ≡ all (row_within rooms.now) row.now }
{
    row.iter()
        .enumerate()
        .fold(true, |fine, (v, &n)| fine & (n <= rooms[v]))
}

/// A store that isn't there has no room.
fn store_within(stores: u8, rooms: &[u8; 32], p: usize, row: &[u8; 32]) -> bool
    ensures { result ≡ all (λ v n. leb n (pick (ltb p stores) (get_or rooms.now v 0) 0)) row.now }
{
    if p < stores as usize {
        row_within(rooms, row)
    } else {
        row_within(&[0; 32], row)
    }
}

/// The places of each store are a row of 32, compared with the views' rooms.
fn within(stores: u8, rooms: &[u8; 32], copies: &[u8; 256]) -> bool
    ensures { result ≡ all (within_room stores rooms.now) copies.now }
{
    let (rows, _) = copies.as_chunks::<32>();
    rows.iter()
        .enumerate()
        .all(|(p, row)| store_within(stores, rooms, p, row))
}

/// How many copies of its record, or acks, a view may have at a place: 15, and none in phase 0 or 1.
#[tactic(auto, using(unbroken::proofs::Fill::fill_end, unbroken::proofs::Fill::fill_start, unbroken::proofs::Fill::fill_step))]
fn record_rooms(m: &State) -> [u8; 32]
    ensures { result ≡ table (record_room m.now.views) 32 }
{
    let mut rooms = [0; 32];
    for v in 0..32 {
        rooms[v] = if 2 <= m.views[v].phase { 15 } else { 0 };
    }
    rooms
}

/// How many updates or uacks: the same, and none of a view with no entry.
#[tactic(auto, using(unbroken::proofs::Fill::fill_end, unbroken::proofs::Fill::fill_start, unbroken::proofs::Fill::fill_step))]
fn update_rooms(m: &State) -> [u8; 32]
    ensures { result ≡ table (update_room m.now.entries) 32 }
{
    let mut rooms = [0; 32];
    for v in 0..32 {
        rooms[v] = if has_entry(&m.entries[v]) { 15 } else { 0 };
    }
    rooms
}

/// Records or acks: 0 to 15 at a place, and none at a store that isn't there or of a view in phase 0 or 1.
#[tactic(auto, unfolding(protocol::specs::Broken::records_fine), using(crate::proofs::Rooms::rooms_same))]
pub(crate) fn records_fine(m: &State, copies: &[u8; 256]) -> bool
    ensures each { result ≡ records_fine m.now.stores m.now.views copies.now }
    ensures long { length copies.now ≡ 256 }
{
    within(m.stores, &record_rooms(m), copies)
}

/// Updates or uacks: the same, and none of a view with no entry.
#[tactic(auto, unfolding(protocol::specs::Broken::updates_fine), using(crate::proofs::Rooms::rooms_same))]
pub(crate) fn updates_fine(m: &State, copies: &[u8; 256]) -> bool
    ensures each { result ≡ updates_fine m.now.stores m.now.entries copies.now }
    ensures long { length copies.now ≡ 256 }
{
    within(m.stores, &update_rooms(m), copies)
}
