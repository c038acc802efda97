//! The run of a book: its steps, read and taken where the book and the machine stand.
#![tactic(auto)]

ghost use Rattle.std.specs.Prelude.{◌≡◌, ◌≤◌, IfErr, IfOk, eqb, length};
ghost use Rattle.std.proofs.lemmas.List.Edits.{sets};
ghost use Rattle.protocol.specs.Book.{count_of, setup_read, steps_from};
ghost use Rattle.protocol.specs.Refusal.{answer, number};
ghost use Rattle.protocol.specs.Run.{book_no, buffer_of, fresh_of, run_of, steps_read};
ghost use Rattle.protocol.specs.Steps.{answers, ran};
ghost use Rattle.protocol.specs.Words.{one, times};
ghost use Rattle.runs.specs.Ran.{OneRun, told_run};

mod heading;
pub mod reader;

use machine::sound::Sound;
use protocol::State;
use protocol::refusal::{Refusal, answer_number};
use reader::Reader;

/// How many steps a book has, and how many of them were taken.
#[derive(Clone, Copy)]
pub struct Counts {
    pub steps: u16,
    pub taken: u16,
}

/// The machine after a book, the empty one where it is refused.
#[derive(Clone, Copy)]
pub struct Ran {
    pub state: State,
    pub ran: Result<Counts, Refusal>,
}

/// The fresh machine of a book whose answers fit the room.
#[tactic(auto, using(crate::proofs::Valid::formed_count), unfolding(protocol::specs::Run::book_no))]
fn opened(book: &[u8], room: usize) -> Result<Sound, Refusal>
    ensures ok { IfOk result (λ m. (book_no book.now room ≡ 0) × (m.state ≡ fresh_of (setup_read book.now)) × (length (steps_read book.now) ≡ count_of book.now) × (count_of book.now ≤ room)) }
    ensures err { IfErr result (λ e. number e ≡ book_no book.now room) }
{
    if !heading::well_formed(book) {
        return Err(Refusal::MalformedBook);
    }
    let machine = Sound::setup(heading::setup_read(book))?;
    if room < usize::from(heading::count_of(book)) {
        return Err(Refusal::FewAnswers);
    }
    Ok(machine)
}

/// Runs a book, and writes each step's number into the answers. A refusal writes nothing.
#[tactic(auto, using(crate::proofs::Valid::filled_by_sets), unfolding(protocol::specs::Run::run_of, protocol::specs::Run::buffer_of, protocol::specs::Run::filled))]
pub fn run(book: &[u8], numbers: &mut [u8]) -> Ran
    ensures run { told_run result ≡ run_of book.now (length numbers.old) }
    ensures numbers { numbers.new ≡ buffer_of book.now numbers.old }
{
    let mut machine = match opened(book, numbers.len()) {
        Ok(machine) => machine,
        Err(refusal) => {
            return Ran {
                state: broken::fresh::empty(),
                ran: Err(refusal),
            };
        }
    };
    let steps = heading::count_of(book);
    let taken = take_steps(&mut machine, book, heading::start_of(book), steps, numbers);
    Ran {
        state: machine.state,
        ran: Ok(Counts { steps, taken }),
    }
}

/// What an answer adds to the count of steps taken.
#[tactic(auto, using(protocol::proofs::Refused::never_zero))]
fn one_taken(told: Result<(), Refusal>) -> u16
    ensures { result ≡ one (eqb (answer told) 0) }
{
    match told {
        Ok(()) => 1,
        Err(_) => 0,
    }
}

/// Takes the n steps that stand in a book from here on, or as many as do, and tells how many were taken. The number of each goes
/// where they are lent to.
fn take_steps(machine: &mut Sound, book: &[u8], at: usize, n: u16, numbers: &mut [u8]) -> u16
    requires { n ≤ length numbers.old }
    ensures state { machine.new.state ≡ ran machine.old.state (steps_from book.now n at) }
    ensures numbers { numbers.new ≡ sets numbers.old 0 (answers machine.old.state (steps_from book.now n at)) }
    ensures taken { result ≡ times 0 (answers machine.old.state (steps_from book.now n at)) }
{
    let mut reader = Reader { book, at };
    let mut taken = 0;
    for i in 0..n {
        let Some(step) = reader.step() else {
            return taken;
        };
        let answer = machine.take(step);
        taken += one_taken(answer);
        numbers[i as usize] = answer_number(answer);
    }
    taken
}

/// What is told of a run leaves nothing out.
#[tactic(auto, using(crate::proofs::Told::one_run))]
pub fn laws()
    ensures { OneRun }
{}
