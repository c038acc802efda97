//! The walk back over what the stores' checkpoints hold: visiting a sender record calls the loop over its causes, which calls
//! the visit of each cause's record. A cause is below its key.

#![tactic(auto)]

mod met;

ghost use Rattle.std.specs.Prelude.{◌≡◌, ◌+◌, ◌-◌, ◌≤◌, ◌<◌, true, ℕ, OnOk};
ghost use Rattle.protocol.specs.Closed.{closed_of, rests_of};
ghost use Rattle.protocol.specs.Walk.{causes_held, each, found_of, hop_of, to_cause, visit_of, walk_of};
ghost use Rattle.walk.specs.Going.{Comes, Kept, Ready};
ghost use Rattle.walk.specs.Told.{OneWalk, told_met, told_walk};

use arrayvec::ArrayVec;
use broken::is_broken;
use lending::Bytes;
use met::Trail;
pub use met::Walk;
use protocol::refusal::Refusal;
use protocol::sets::is_in;
use protocol::{State, Status, phase};

/// In phase 5, no repair in flight, and no entry to-send or waiting.
fn rests(m: &State, v: usize) -> bool
    requires { v < 32 }
    ensures { result ≡ rests_of m.now v }
{
    m.views[v].phase == phase::SETTLED
        && !m.repairs[v].flying
        && !matches!(m.entries[v].status, Status::ToSend | Status::Waiting)
}

#[tactic(auto, unfolding(protocol::specs::Closed::closed_of))]
fn is_closed(m: &State, key: u8) -> bool
    requires { key < 16 }
    ensures { result ≡ closed_of m.now key }
{
    let v = key as usize * 2;
    rests(m, v) && rests(m, v + 1)
}

/// Whether a link, 0 for none and p + 1 for store p, goes to the sender record of a closed key.
#[tactic(auto, unfolding(protocol::specs::Walk::found_of))]
fn is_found(m: &State, key: u8, link: u8) -> bool
    requires { key < 16 }
    ensures same { result ≡ found_of m.now key link }
    ensures bounded { result ≡ true → (1 ≤ link) × (link ≤ 8) }
{
    link != 0
        && m.shelves.get(link as usize - 1).is_some_and(|shelf| is_in(shelf.kept, key as usize * 2)
            && is_closed(m, key))
}

/// By the cause link to the receipt, and by that one's viewlink to the opposite sender record. 0 where the receipt isn't held.
#[tactic(auto, unfolding(protocol::specs::Walk::hop_of, protocol::specs::Walk::receipt_of))]
fn hop(m: &State, key: u8, link: u8, cause: u8) -> u8
    requires keys { (key < 16) × (cause < 16) }
    requires there { (1 ≤ link) × (link ≤ 8) }
    ensures { result ≡ hop_of m.now key link cause }
{
    let links = &m.links[(link as usize - 1) * 16 + key as usize];
    let receipt = cause as usize * 2 + 1;
    match m.shelves.get(links.to[cause as usize] as usize) {
        Some(shelf) if is_in(shelf.kept, receipt) => shelf.keptlinks[receipt],
        _ => 0,
    }
}

/// The sender record of a key that is not met is looked up by a link, and then each of its causes.
#[cycle(walk)]
fn visit(m: &State, walk: &mut Trail, key: u8, link: u8) -> Result<(), Refusal>
    requires low { key < 16 }
    requires ready { Ready walk.old key }
    ensures kept { OnOk result (Kept walk.new) }
    ensures met { (depth : ℕ) → key < depth → Comes result walk.new (visit_of depth m.now key link (told_met walk.old)) }
{
    if !is_found(m, key, link) {
        return Err(Refusal::OpenInteraction);
    }
    walk.look_up();
    walk.add(key);
    causes(m, walk, key, link)
}

/// For each cause that is not met, rising, its receipt is looked up, and the walk goes on from that one's record.
#[cycle(walk)]
fn causes(m: &State, walk: &mut Trail, key: u8, link: u8) -> Result<(), Refusal>
    requires low { key < 16 }
    requires there { (1 ≤ link) × (link ≤ 8) }
    requires kept { Kept walk.old }
    ensures kept { OnOk result (Kept walk.new) }
    ensures met { (depth : ℕ) → key ≤ depth → Comes result walk.new (each (to_cause (visit_of depth m.now) m.now key link) (causes_held m.now key link) key 0 (told_met walk.old)) }
{
    let set = m.contents[(link as usize - 1) * 32 + key as usize * 2].causes;
    for cause in 0..key {
        if walk.is_due(set, cause) {
            walk.look_up();
            visit(m, walk, cause, hop(m, key, link, cause))?;
        }
    }
    Ok(())
}

/// The walk back from a key, over what the stores' checkpoints hold. Refused for a broken machine, then for a key not in this
/// machine, then where it meets a key that isn't closed, or misses an entry or link.
#[tactic(auto, unfolding(protocol::specs::Walk::walk_of, protocol::specs::Walk::walked_from), using(unbroken::proofs::Laws::Room::bounds))]
pub fn walk(m: &State, key: u8) -> Result<Walk, Refusal>
    ensures { told_walk result ≡ walk_of m.now key }
{
    if is_broken(m) {
        return Err(Refusal::BrokenMachine);
    }
    if m.made <= key {
        return Err(Refusal::NotInMachine);
    }
    let mut walk = Trail {
        keys: ArrayVec::new(),
        lookups: 0,
    };
    visit(m, &mut walk, key, m.views[key as usize * 2].store + 1)?;
    Ok(Walk {
        keys: Bytes::from(&walk.keys),
        lookups: walk.lookups,
    })
}

/// What is told of a walk leaves nothing out.
#[tactic(auto, using(crate::proofs::Told::one_walk))]
pub fn laws()
    ensures { OneWalk }
{}
