// The stores that are not broken and what they hold: contents, their cause links, notes and viewlinks.
ghost use Rattle.std.specs.Prelude.{◌≡◌, ℕ, ◌&&◌, ◌<◌, ◌||◌, eqb, get_or, leb, ltb, length};
ghost use Rattle.broken.specs.Sets.{store_noted};
ghost use Rattle.protocol.specs.Broken.{blank_contents, blank_store, contents_fine, held_links_fine, same_contents, notes_fine, same_links, store_fine, viewlink_fine};
ghost use Rattle.protocol.specs.Slots.{no_entry, no_view, status_number};
ghost use Rattle.protocol.specs.Words.{all, bit, joined, pick};

use crate::flight::has_entry;
use protocol::sets::with;
use protocol::{Contents, Links, State, Store, View};

/// Contents that are there are those of the view's record, which has left phase 1.
fn same_contents(stores: u8, w: &View, at: usize, c: &Contents) -> bool
    ensures { result ≡ same_contents stores w.now at c.now }
{
    at / 32 < stores as usize
        && 2 <= w.phase
        && c.asserter == w.actor
        && c.causes == w.causes
        && c.word == w.word
}

fn blank_contents(c: &Contents) -> bool
    ensures { result ≡ blank_contents c.now }
{
    c.asserter == 0 && c.causes == 0 && c.word == 0
}

#[tactic(auto, unfolding(protocol::specs::Broken::contents_fine))]
fn place_fine(m: &State, at: usize, c: &Contents) -> bool
    requires { at < 256 }
    ensures { result ≡ contents_fine m.now.stores m.now.views m.now.shelves at c.now }
{
    if m.shelves[at / 32].has_contents(at % 32) {
        same_contents(m.stores, &m.views[at % 32], at, c)
    } else {
        blank_contents(c)
    }
}

#[tactic(auto, unfolding(protocol::specs::Words::all_from))]
pub(crate) fn contents_fine(m: &State) -> bool
    ensures each { result ≡ all (contents_fine m.now.stores m.now.views m.now.shelves) m.now.contents }
    ensures long { length m.now.contents ≡ 256 }
{
    m.contents
        .iter()
        .enumerate()
        .all(|(at, c)| place_fine(m, at, c))
}

fn same_links(a: &[u8; 16], b: &[u8; 16]) -> bool
    ensures { result ≡ same_links a.now b.now }
{
    a == b
}

pub(crate) fn blank_links(links: &[u8; 16]) -> bool
    ensures blank { result ≡ all (λ j link. eqb link 0) links.now }
    ensures long { length links.now ≡ 16 }
{
    *links == [0; 16]
}

/// The cause links of a sender's contents are its record's, and blank where no contents are.
#[tactic(auto, unfolding(protocol::specs::Broken::held_links_fine))]
fn sender_fine(m: &State, at: usize, l: &Links) -> bool
    requires { at < 128 }
    ensures { result ≡ held_links_fine m.now.shelves m.now.views at l.now }
{
    let v = at % 16 * 2;
    if m.shelves[at / 16].has_contents(v) {
        same_links(&l.to, &m.views[v].links)
    } else {
        blank_links(&l.to)
    }
}

#[tactic(auto, unfolding(protocol::specs::Words::all_from))]
pub(crate) fn links_fine(m: &State) -> bool
    ensures each { result ≡ all (held_links_fine m.now.shelves m.now.views) m.now.links }
    ensures long { length m.now.links ≡ 128 }
{
    m.links
        .iter()
        .enumerate()
        .all(|(at, l)| sender_fine(m, at, l))
}

/// A viewlink is 0 for none, or a store's number and one; none is at a store that isn't there, or of a view that isn't made.
#[tactic(auto, unfolding(protocol::specs::Words::all_from))]
fn viewlinks_fine(m: &State, p: usize, links: &[u8; 32]) -> bool
    ensures each { result ≡ all (viewlink_fine m.now.stores m.now.made p) links.now }
    ensures long { length links.now ≡ 32 }
{
    // The chain ends at no view, so that many are compared at once.
    links.iter().enumerate().fold(true, |fine, (v, &link)| {
        fine & (link == 0 || link <= m.stores && p < m.stores as usize && v < m.made as usize * 2)
    })
}

/// Not up, holding nothing and owing nothing.
fn blank_store(s: &Store) -> bool
    ensures { result ≡ blank_store s.now }
{
    !s.up && s.held == 0 && s.kept == 0 && s.acksowed == 0 && s.uacksowed == 0
}

/// A store behind the last holds and owes nothing.
fn there_or_blank(stores: u8, p: usize, s: &Store) -> bool
    ensures { result ≡ (ltb p stores || blank_store s.now) }
{
    p < stores as usize || blank_store(s)
}

/// A set with a view in it, where it is to be.
fn joined_if(set: u32, v: usize, joins: bool) -> u32
    requires { v < 32 }
    ensures { result ≡ pick joins (joined set v) set }
{
    if joins { with(set, v) } else { set }
}

/// The views that may have an ack: those that have left phase 1.
#[tactic(auto, using(crate::proofs::Members::join_end, crate::proofs::Members::join_start, crate::proofs::Members::join_step))]
fn ready(m: &State) -> u32
    ensures { (v : ℕ) → bit result v ≡ (ltb v 32 && leb 2 (get_or m.now.views v no_view).phase) }
{
    let mut set = 0;
    for v in 0..32 {
        set = joined_if(set, v, 2 <= m.views[v].phase);
    }
    set
}

/// .. and a uack: those that have an entry.
#[tactic(auto, using(crate::proofs::Members::join_end, crate::proofs::Members::join_start, crate::proofs::Members::join_step))]
fn entered(m: &State) -> u32
    ensures { (v : ℕ) → bit result v ≡ (ltb v 32 && leb 1 (status_number (get_or m.now.entries v no_entry).status)) }
{
    let mut set = 0;
    for v in 0..32 {
        set = joined_if(set, v, has_entry(&m.entries[v]));
    }
    set
}

/// Every view of which a note is owed may have one: joined with those, they are no more.
#[tactic(auto, using(crate::proofs::Members::notes_inside))]
fn notes_fine(may: u32, owed: u32) -> bool
    ensures { result ≡ notes_fine (bit may) owed }
{
    owed | may == may
}

/// Notes are owed only of views that may have them: `acked` and `uacked`.
fn store_fine(m: &State, acked: u32, uacked: u32, p: usize, s: &Store) -> bool
    ensures { result ≡ store_noted acked uacked m.now.stores m.now.made p s.now }
{
    there_or_blank(m.stores, p, s)
        & notes_fine(acked, s.acksowed)
        & notes_fine(uacked, s.uacksowed)
        & viewlinks_fine(m, p, &s.viewlinks)
        & viewlinks_fine(m, p, &s.keptlinks)
}

pub(crate) fn stores_fine(m: &State) -> bool
    ensures each { result ≡ all (store_fine m.now.stores m.now.made m.now.views m.now.entries) m.now.shelves }
    ensures long { length m.now.shelves ≡ 8 }
{
    let acked = ready(m);
    let uacked = entered(m);
    m.shelves
        .iter()
        .enumerate()
        .all(|(p, s)| store_fine(m, acked, uacked, p, s))
}
