//! What the benchmark measures of ours; crate bench_c has these calls for the Rust program in bench/.
//!
//! A machine is no argument of a call from Rust, so each function makes its own by running a book, then makes one call
//! turn after turn; bench/ takes off the time of a call with no turns. A turn of a step or a drain is the call by value
//! and nothing more that counts: one number of the machine that comes back is read where it lies. The acks in flight at
//! a place are 1 and 2 by turns, so that what one turn found of the machine can't be kept for the next. Nor is a store of
//! the 2004 protocol an argument: it is made by receiving (received.rt).

#![tactic(auto)]

ghost use Rattle.std.specs.Prelude.{◌≡◌, ◌+◌, ◌%◌, ℕ};
ghost use Rattle.protocol.specs.declared.State.{State};
ghost use Rattle.protocol.specs.Words.{pick};
ghost use Rattle.protocol.specs.Broken.{broken_of};
ghost use Rattle.protocol.specs.Book.{on_read, read_step};
ghost use Rattle.bench.specs.Received.{negotiation, filled, receive_told};
ghost use Rattle.bench.specs.Turns.{TellsOf, after, turns, summed, turn, broken_told, walk_told, lineage_told, drain_told, step_told};

use machine::Machine;
use machine::sound::Sound;
use protocol::refusal::answer_number;
use protocol::{State, Step};
use runs::reader::Reader;

mod received;
mod turns;

use turns::{calls, turns};

/// The machine after a book of at most 4,096 steps.
fn after(book: &[u8]) -> State
    ensures { result ≡ after book.now }
{
    let mut answers = [0; 4096];
    runs::run(book, &mut answers).state
}

/// The acks of a turn.
fn acks(left: u32) -> u8
    ensures { result ≡ left % 2 + 1 }
{
    (left % 2) as u8 + 1
}

/// A number, and one of what came with it.
fn told(n: u16, made: u8) -> u32
    ensures { result ≡ n + made }
{
    u32::from(n) + u32::from(made)
}

/// Turns of a call on a machine, whose acks at a place change with each.
fn on_machine<F: Fn(&State) -> u32>(from: State, at: u8, times: u32, call: F) -> u32
    requires { F.IsAlwaysCallable call }
    ensures { (told : State → ℕ) → TellsOf (F.post call) told → result ≡ (turns (turn told at) times (from, 0)).1 }
{
    turns(from, times, |m, left| {
        m.acks[usize::from(at)] = acks(left);
        call(m)
    })
}

/// Turns of a step on one machine: there is no test whose answer could be kept.
fn on_sound(m: Sound, s: Step, times: u32) -> u32
    ensures { result ≡ turns (λ _ sum. summed sum (step_told s m.state)) times 0 }
{
    calls(times, |_| {
        let stepped = m.step(s);
        told(
            u16::from(answer_number(stepped.answer)),
            stepped.machine.state.made,
        )
    })
}

/// How many turns found the machine broken.
pub fn bench_broken(book: &[u8], at: u8, times: u32) -> u32
    ensures { result ≡ (turns (turn broken_told at) times (after book.now, 0)).1 }
{
    on_machine(after(book), at, times, |m| u32::from(broken::is_broken(m)))
}

/// The keys that the turns' walks answered, counted.
pub fn bench_walk(book: &[u8], key: u8, at: u8, times: u32) -> u32
    ensures { result ≡ (turns (turn (walk_told key) at) times (after book.now, 0)).1 }
{
    on_machine(after(book), at, times, |m| match walk::walk(m, key) {
        Ok(walk) => walk.keys.len() as u32,
        Err(_) => 0,
    })
}

/// The bytes of the turns' PROV-N documents, counted. A turn writes the document into an array of its own, which has room for the
/// longest.
pub fn bench_lineage(book: &[u8], key: u8, at: u8, times: u32) -> u32
    ensures { result ≡ (turns (turn (lineage_told key) at) times (after book.now, 0)).1 }
{
    on_machine(after(book), at, times, |m| {
        let mut text = [0; 6247];
        u32::from(provn::write(m, key, &mut text).unwrap_or(0))
    })
}

/// The steps that the turns' drains took, and the interactions of each machine, counted.
pub fn bench_drain(book: &[u8], at: u8, times: u32) -> u32
    ensures { result ≡ (turns (turn drain_told at) times (after book.now, 0)).1 }
{
    on_machine(after(book), at, times, |m| {
        let drained = drain::drain(*m);
        told(drained.taken.unwrap_or(0), drained.state.made)
    })
}

/// The numbers of the turns' steps, and the interactions of each machine, summed. The step is given as a book has it; 0 where the
/// bytes are those of none.
pub fn bench_step(book: &[u8], step: &[u8], at: u8, times: u32) -> u32
    ensures { result ≡ on_read (read_step step.now 0) 0 (λ s next. (turns (turn (step_told s) at) times (after book.now, 0)).1) }
{
    let Some(s) = (Reader { book: step, at: 0 }).step() else {
        return 0;
    };
    on_machine(after(book), at, times, |m| {
        let stepped = Machine { state: *m }.step(s);
        told(
            u16::from(answer_number(stepped.answer)),
            stepped.machine.state.made,
        )
    })
}

/// The same without the test for a broken value in each turn; 1 if the machine is broken.
pub fn bench_step_unbroken(book: &[u8], step: &[u8], times: u32) -> u32
    ensures { result ≡ pick (broken_of (after book.now)) 1 (on_read (read_step step.now 0) 0 (λ s next. turns (λ _ sum. summed sum (step_told s (after book.now))) times 0)) }
{
    let Some(m) = Sound::new(after(book)) else {
        return 1;
    };
    match (Reader { book: step, at: 0 }).step() {
        Some(s) => on_sound(m, s, times),
        None => 0,
    }
}

/// The numbers of the turns' messages, and the activities of each store, summed: each message is the last activity's, in a
/// store that holds so many.
pub fn bench_receive(held: u32, last: u32, times: u32) -> u32
    ensures { result ≡ turns (λ left sum. summed sum (receive_told (negotiation last left) (filled held))) times 0 }
{
    received::turns(received::filled(held), last, times)
}
