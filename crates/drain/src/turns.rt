//! What the drain does next: the first step that applies.
// Each asks for `Bounds` and takes no `Sound`: tried, and what the searches' closures ask didn't close.
ghost use Rattle.std.specs.Prelude.{◌≡◌, ◌≤◌, ◌<◌, ◌*◌, find, IfSome};
ghost use Rattle.std.specs.List.{range_with_len};
ghost use Rattle.protocol.specs.Drain.{awaiting, busy_in, coordinator_turn, entry_step, job_step, other_in, repair_in, turn_of, unfinished_in, unreceived_in, up_in};
ghost use Rattle.protocol.specs.Words.{all};
ghost use Rattle.unbroken.specs.Bounds.{Bounds};

use protocol::sets::is_in;
use protocol::{State, Status, Step, phase};

/// (a) The lowest unreceived key.
fn unreceived(m: &State) -> Option<u8>
    requires { Bounds m.now }
    ensures first { result ≡ find (unreceived_in m.now.views) (range_with_len 0 m.now.made) }
    ensures low { IfSome result (λ key. key < m.now.made) }
{
    (0..m.made).find(|&key| m.views[key as usize * 2 + 1].phase == phase::NOT_MADE)
}

/// (b) The lowest actor with a queue.
fn busy(m: &State) -> Option<u8>
    requires { Bounds m.now }
    ensures first { result ≡ find (busy_in m.now.queues) (range_with_len 0 m.now.actors) }
    ensures low { IfSome result (λ actor. actor < m.now.actors) }
{
    (0..m.actors).find(|&actor| m.queues[actor as usize].len != 0)
}

/// The lowest store in a list that isn't the current one.
fn other_store(stores: u8, listed: u8, current: u8) -> Option<u8>
    requires { stores ≤ 8 }
    ensures { result ≡ find (other_in listed current) (range_with_len 0 stores) }
{
    (0..stores).find(|&p| is_in(u32::from(listed), p as usize) && current != p)
}

/// The head in phase 3: an ack from its current store, else a checkpoint if that store owes one, else that store takes a record
/// copy, else timeout to the lowest other store in the list.
#[tactic(auto, unfolding(protocol::specs::Drain::lowest))]
fn awaiting_step(m: &State, actor: u8) -> Step
    requires bounds { Bounds m.now }
    requires there { actor < m.now.actors }
    ensures { result ≡ awaiting m.now actor }
{
    let v = m.queues[actor as usize].views[0];
    let store = m.views[v as usize].store;
    let at = store as usize * 32 + v as usize;
    let (key, role) = (v / 2, v % 2);
    if m.acks[at] != 0 {
        return Step::TakeAck { store, key, role };
    }
    if is_in(m.shelves[store as usize].acksowed, v as usize) {
        return Step::Checkpoint { store };
    }
    if m.records[at] != 0 {
        return Step::TakeRecord { store, key, role };
    }
    Step::Timeout {
        actor,
        store: other_store(m.stores, m.lists[actor as usize], store).unwrap_or(m.stores),
    }
}

/// The head of the queue: phase 1 pre-check, phase 2 send, phase 4 post-check.
#[tactic(auto, unfolding(protocol::specs::Drain::job_step))]
fn job_step(m: &State, actor: u8) -> Step
    requires bounds { Bounds m.now }
    requires there { actor < m.now.actors }
    ensures { result ≡ job_step m.now actor }
{
    let v = m.queues[actor as usize].views[0] as usize;
    match m.views[v].phase {
        phase::QUEUED => Step::PreCheck { actor },
        phase::READY => Step::SendRecord { actor },
        phase::ACKNOWLEDGED => Step::PostCheck { actor },
        _ => awaiting_step(m, actor),
    }
}

/// (c) The lowest view with a repair.
fn repair_due(m: &State) -> Option<u8>
    requires { Bounds m.now }
    ensures first { result ≡ find (repair_in m.now.repairs) (range_with_len 0 (m.now.made * 2)) }
    ensures low { IfSome result (λ v. v < m.now.made * 2) }
{
    (0..m.made * 2).find(|&v| m.repairs[v as usize].flying)
}

/// (d) The lowest view with an entry that is to-send or waiting.
fn entry_due(m: &State) -> Option<u8>
    requires { Bounds m.now }
    ensures first { result ≡ find (unfinished_in m.now.entries) (range_with_len 0 (m.now.made * 2)) }
    ensures low { IfSome result (λ v. v < m.now.made * 2) }
{
    (0..m.made * 2).find(|&v| {
        matches!(
            m.entries[v as usize].status,
            Status::ToSend | Status::Waiting
        )
    })
}

/// To-send: step 10. Waiting: a uack from the destination, else a checkpoint if that owes one, else an update there, else step 13.
#[tactic(auto, unfolding(protocol::specs::Drain::entry_step))]
fn entry_step(m: &State, v: u8) -> Step
    requires bounds { Bounds m.now }
    requires view { v < 32 }
    ensures { result ≡ entry_step m.now v }
{
    let e = &m.entries[v as usize];
    let (key, role) = (v / 2, v % 2);
    if e.status == Status::ToSend {
        return Step::SendUpdate { key, role };
    }
    let store = e.destination;
    let at = store as usize * 32 + v as usize;
    if m.uacks[at] != 0 {
        return Step::TakeUack { store, key, role };
    }
    if is_in(m.shelves[store as usize].uacksowed, v as usize) {
        return Step::Checkpoint { store };
    }
    if m.updates[at] != 0 {
        return Step::TakeUpdate { store, key, role };
    }
    Step::Expire { key, role }
}

/// (c) a repair, then (d) an entry.
#[tactic(auto, unfolding(protocol::specs::Drain::lowest))]
fn coordinator_turn(m: &State) -> Option<Step>
    requires { Bounds m.now }
    ensures { result ≡ coordinator_turn m.now }
{
    if let Some(v) = repair_due(m) {
        return Some(Step::TakeRepair {
            key: v / 2,
            role: v % 2,
        });
    }
    let v = entry_due(m)?;
    Some(entry_step(m, v))
}

#[tactic(auto, unfolding(protocol::specs::Drain::turn_of, protocol::specs::Drain::lowest))]
pub(crate) fn turn(m: &State) -> Option<Step>
    requires { Bounds m.now }
    ensures { result ≡ turn_of m.now }
{
    if let Some(key) = unreceived(m) {
        return Some(Step::Receive { key });
    }
    if let Some(actor) = busy(m) {
        return Some(job_step(m, actor));
    }
    coordinator_turn(m)
}

/// Every store of the machine is up; behind the last there is none.
#[tactic(auto, unfolding(protocol::specs::Words::all_from))]
pub(crate) fn all_up(m: &State) -> bool
    ensures { result ≡ all (up_in m.now.stores) m.now.shelves }
{
    m.shelves
        .iter()
        .enumerate()
        .all(|(p, s)| m.stores as usize <= p || s.up)
}
