// The rows and queues that are not broken. The queues are gone over once: each view that stands there is marked, a bit of one word,
// and one that is met again has its mark.
ghost use Rattle.std.specs.Prelude.{◌≡◌, ◌≤◌, ◌<◌, ◌&&◌, ◌||◌, true, false, IfNone, IfSome, length, ltb, eqb};
ghost use Rattle.protocol.specs.Broken.{rows_fine, waits, waits_at};
ghost use Rattle.protocol.specs.Slots.{standing};
ghost use Rattle.protocol.specs.Words.{all, joined};
ghost use Rattle.broken.specs.Marks.{all_met, marks_after, marks_of, place_met, queue_marks, queue_met, queues_met};

use protocol::sets::{is_in, with};
use protocol::{Queue, State, View};

/// What stands behind the last actor is blank.
#[tactic(auto, unfolding(protocol::specs::Broken::rows_fine, protocol::specs::Words::all_from))]
pub(crate) fn rows_fine(actors: u8, rows: &[u8; 8]) -> bool
    ensures each { result ≡ rows_fine actors rows.now }
    ensures long { length rows.now ≡ 8 }
{
    rows.iter()
        .enumerate()
        .all(|(a, &x)| a < actors as usize || x == 0)
}

/// Phases 1 to 4 stand in a queue.
pub(crate) fn waits(phase: u8) -> bool
    ensures { result ≡ waits phase }
{
    1 <= phase && phase <= 4
}

/// The view that stands at place i of an actor's queue waits, behind the head in phase 1.
fn waits_at(a: usize, i: usize, w: &View) -> bool
    ensures { result ≡ waits_at a i w.now }
{
    w.actor as usize == a && waits(w.phase) && (i == 0 || w.phase == 1)
}

/// The view at a place of an actor's queue is not met before, and waits there. A number that no view has waits nowhere.
fn place_met(m: &State, marks: u32, a: usize, i: usize, v: u8) -> bool
    ensures met { result ≡ place_met m.now.views a marks i v }
    ensures low { result ≡ true → v < 32 }
{
    match m.views.get(v as usize) {
        Some(w) => !is_in(marks, v as usize) && waits_at(a, i, w),
        None => false,
    }
}

/// The marks with those of a queue's views; none where one is met before, or doesn't wait at its place.
#[tactic(auto, using(crate::proofs::Meet::meet_end, crate::proofs::Meet::meet_marks, crate::proofs::Meet::meet_start, crate::proofs::Meet::meet_step, crate::proofs::Meet::meet_stop))]
fn standing_met(m: &State, a: usize, q: &Queue, before: u32) -> Option<u32>
    requires { q.now.len ≤ 16 }
    ensures some { IfSome result (λ marks. (all_met (place_met m.now.views a) joined before 0 (standing q.now) ≡ true) × (marks ≡ marks_after joined before (standing q.now))) }
    ensures none { IfNone result (all_met (place_met m.now.views a) joined before 0 (standing q.now) ≡ false) }
{
    let mut marks = before;
    for i in 0..q.len as usize {
        let v = q.views[i];
        if !place_met(m, marks, a, i, v) {
            return None;
        }
        marks = with(marks, v as usize);
    }
    Some(marks)
}

/// Behind its end a queue is blank.
#[tactic(auto, unfolding(protocol::specs::Words::all_from))]
fn is_blank_behind(q: &Queue) -> bool
    ensures blank { result ≡ all (λ i v. ltb i q.now.len || eqb v 0) q.now.views }
    ensures long { length q.now.views ≡ 16 }
{
    q.views
        .iter()
        .enumerate()
        .all(|(i, &v)| i < q.len as usize || v == 0)
}

/// The marks with those of a queue; none where the queue is broken.
#[tactic(auto, unfolding(crate::specs::Marks::queue_met, crate::specs::Marks::queue_marks))]
fn queue_met(m: &State, a: usize, q: &Queue, marks: u32) -> Option<u32>
    ensures some { IfSome result (λ after. (queue_met m.now.actors m.now.views marks a q.now ≡ true) × (after ≡ queue_marks marks q.now)) }
    ensures none { IfNone result (queue_met m.now.actors m.now.views marks a q.now ≡ false) }
{
    let blank = is_blank_behind(q);
    // Behind the last actor a queue is empty.
    let empty = a < m.actors as usize || q.len == 0;
    if 16 < q.len || !empty || !blank {
        return None;
    }
    standing_met(m, a, q, marks)
}

/// The marks of all queues; none where one is broken, or a view stands at two places.
#[tactic(auto, using(crate::proofs::Meet::meet_end, crate::proofs::Meet::meet_marks, crate::proofs::Meet::meet_start, crate::proofs::Meet::meet_step, crate::proofs::Meet::meet_stop))]
pub(crate) fn queues_met(m: &State) -> Option<u32>
    ensures some { IfSome result (λ marks. (queues_met m.now.actors m.now.views m.now.queues ≡ true) × (marks ≡ marks_of m.now.queues)) }
    ensures none { IfNone result (queues_met m.now.actors m.now.views m.now.queues ≡ false) }
    ensures long { length m.now.queues ≡ 8 }
{
    let queues: &[Queue] = &m.queues;
    let mut marks = 0;
    for (a, q) in queues.iter().enumerate() {
        marks = queue_met(m, a, q, marks)?;
    }
    Some(marks)
}
