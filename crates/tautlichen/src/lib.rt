//! The recorder as a library for callers in C, C++ and Rust: functions on numbers and byte slices. Each call is a function
//! of a book as the machine's history, answers a number of docs/REFUSALS.md, and writes nothing where it refuses.
// The exports answer a u8 and write into what is lent, since C calls them (tautlichen_c).

#![tactic(auto)]

ghost use Rattle.std.specs.Prelude.{◌≡◌, length, IfOk};
ghost use Rattle.protocol.specs.Words.{one};
ghost use Rattle.protocol.specs.Run.{run_of, buffer_of};
ghost use Rattle.reaches.specs.Reaches.{keys_of};
ghost use Rattle.protocol.specs.Listing.{listing_of};
ghost use Rattle.protocol.specs.Lent.{lent, short_no, over};
ghost use Rattle.pair_rule.specs.Told.{told_check};
ghost use Rattle.protocol.specs.Refusal.{answer};
ghost use Rattle.runs.specs.Ran.{told_run};
ghost use Rattle.tautlichen.specs.Calls.{list_text, list_no, history, drain_after, drain_text, drain_no, walk_after, walk_no, lineage_text, lineage_no, pair_after, pair_no};
ghost use Rattle.tautlichen.specs.Only.{EveryExport};

use pair_rule::{CheckRefusal, Rule};
use protocol::State;
use protocol::refusal::{Refusal, answer_number};
use runs::{Counts, Ran};

/// Writes the listing of a machine after a run, and its length.
fn show(m: &State, run: Counts, text: &mut [u8], len: &mut u16) -> Result<(), Refusal>
    ensures number { answer result ≡ short_no (listing_of m.now run.steps run.taken) text.old }
    ensures text { text.new ≡ lent (answer result) (over (listing_of m.now run.steps run.taken) text.old) text.old }
    ensures len { len.new ≡ lent (answer result) (length (listing_of m.now run.steps run.taken)) len.old }
{
    let listing = listing::listing(m, run.steps, run.taken);
    lending::put(text, &listing)?;
    *len = listing.len() as u16;
    Ok(())
}

/// The machine after a book, with its steps and those taken.
fn after(book: &[u8]) -> Ran
    ensures { told_run result ≡ history book.now }
{
    let mut numbers = [0; 4096];
    runs::run(book, &mut numbers)
}

/// Runs a book, and writes each step's number into the answers. Refused with 10, 11, 12.
pub fn tautlichen_run(book: &[u8], answers: &mut [u8]) -> u8
    ensures number { result ≡ (run_of book.now (length answers.old)).answer }
    ensures answers { answers.new ≡ buffer_of book.now answers.old }
{
    match runs::run(book, answers).ran {
        Ok(_) => 0,
        Err(refusal) => u8::from(refusal),
    }
}

/// A run with its listing. The answers are written last, when it is known that nothing is refused.
#[tactic(auto, using(crate::proofs::Listed::answered, crate::proofs::Listed::few, crate::proofs::Listed::listed, crate::proofs::Listed::refused, crate::proofs::Listed::shown, crate::proofs::Listed::taken_length, crate::proofs::Listed::within))]
fn list(book: &[u8], answers: &mut [u8], text: &mut [u8], len: &mut u16) -> Result<(), Refusal>
    ensures number { answer result ≡ list_no book.now answers.old text.old }
    ensures answers { answers.new ≡ lent (answer result) (buffer_of book.now answers.old) answers.old }
    ensures text { text.new ≡ lent (answer result) (over (list_text book.now answers.old) text.old) text.old }
    ensures len { len.new ≡ lent (answer result) (length (list_text book.now answers.old)) len.old }
{
    let mut numbers = [0; 4096];
    let ran = runs::run(book, &mut numbers);
    let run = ran.ran?;
    let steps = usize::from(run.steps);
    if answers.len() < steps {
        return Err(Refusal::FewAnswers);
    }
    show(&ran.state, run, text, len)?;
    lending::copy(answers, &numbers[..steps]);
    Ok(())
}

/// The same, with the listing in `text` and its length in `len`. Refused with 10, 11, 12, then 14.
pub fn tautlichen_list(book: &[u8], answers: &mut [u8], text: &mut [u8], len: &mut u16) -> u8
    ensures number { result ≡ list_no book.now answers.old text.old }
    ensures answers { answers.new ≡ lent result (buffer_of book.now answers.old) answers.old }
    ensures text { text.new ≡ lent result (over (list_text book.now answers.old) text.old) text.old }
    ensures len { len.new ≡ lent result (length (list_text book.now answers.old)) len.old }
{
    answer_number(list(book, answers, text, len))
}

/// The drain after a book, with its listing.
#[tactic(auto, unfolding(crate::specs::Calls::drain_no), using(protocol::proofs::Refused::never_zero))]
fn drain(book: &[u8], text: &mut [u8], len: &mut u16, count: &mut u16) -> Result<(), Refusal>
    ensures number { answer result ≡ drain_no book.now text.old }
    ensures text { text.new ≡ lent (answer result) (over (drain_text book.now) text.old) text.old }
    ensures len { len.new ≡ lent (answer result) (length (drain_text book.now)) len.old }
    ensures count { count.new ≡ lent (answer result) (drain_after book.now).count count.old }
{
    let ran = after(book);
    let run = ran.ran?;
    let drained = drain::drain(ran.state);
    let taken = drained.taken?;
    show(&drained.state, run, text, len)?;
    *count = taken;
    Ok(())
}

/// Drains the machine after a book: the count of steps, and the listing after it with its length. Refused with 10, 11, then 5,
/// then 14.
pub fn tautlichen_drain(book: &[u8], text: &mut [u8], len: &mut u16, count: &mut u16) -> u8
    ensures number { result ≡ drain_no book.now text.old }
    ensures text { text.new ≡ lent result (over (drain_text book.now) text.old) text.old }
    ensures len { len.new ≡ lent result (length (drain_text book.now)) len.old }
    ensures count { count.new ≡ lent result (drain_after book.now).count count.old }
{
    answer_number(drain(book, text, len, count))
}

/// The walk of a key after a book.
#[tactic(auto, unfolding(crate::specs::Calls::walk_no), using(protocol::proofs::Refused::never_zero))]
fn walk(
    book: &[u8],
    key: u8,
    keys: &mut [u8],
    count: &mut u8,
    lookups: &mut u8,
) -> Result<(), Refusal>
    ensures number { answer result ≡ walk_no book.now key keys.old }
    ensures keys { keys.new ≡ lent (answer result) (over (keys_of (walk_after book.now key)) keys.old) keys.old }
    ensures count { count.new ≡ lent (answer result) (walk_after book.now key).count count.old }
    ensures lookups { lookups.new ≡ lent (answer result) (walk_after book.now key).lookups lookups.old }
{
    let ran = after(book);
    ran.ran?;
    let walk = walk::walk(&ran.state, key)?;
    lending::put(keys, &walk.keys)?;
    *count = walk.keys.len() as u8;
    *lookups = walk.lookups;
    Ok(())
}

/// Walks back from a key in the machine after a book: the keys met, and how many. Refused with 10, 11, then 2, 13, then 14.
pub fn tautlichen_walk(
    book: &[u8],
    key: u8,
    keys: &mut [u8],
    count: &mut u8,
    lookups: &mut u8,
) -> u8
    ensures number { result ≡ walk_no book.now key keys.old }
    ensures keys { keys.new ≡ lent result (over (keys_of (walk_after book.now key)) keys.old) keys.old }
    ensures count { count.new ≡ lent result (walk_after book.now key).count count.old }
    ensures lookups { lookups.new ≡ lent result (walk_after book.now key).lookups lookups.old }
{
    answer_number(walk(book, key, keys, count, lookups))
}

/// The document of a key after a book.
#[tactic(auto, unfolding(crate::specs::Calls::lineage_no), using(protocol::proofs::Refused::never_zero))]
fn lineage(book: &[u8], key: u8, text: &mut [u8], len: &mut u16) -> Result<(), Refusal>
    ensures number { answer result ≡ lineage_no book.now key text.old }
    ensures text { text.new ≡ lent (answer result) (over (lineage_text book.now key) text.old) text.old }
    ensures len { len.new ≡ lent (answer result) (length (lineage_text book.now key)) len.old }
{
    let ran = after(book);
    ran.ran?;
    *len = provn::write(&ran.state, key, text)?;
    Ok(())
}

/// Writes the walk of a key in the machine after a book as a PROV-N document, and its length. Refused with 10, 11, then 2, 13,
/// then 14.
pub fn tautlichen_lineage(book: &[u8], key: u8, text: &mut [u8], len: &mut u16) -> u8
    ensures number { result ≡ lineage_no book.now key text.old }
    ensures text { text.new ≡ lent result (over (lineage_text book.now key) text.old) text.old }
    ensures len { len.new ≡ lent result (length (lineage_text book.now key)) len.old }
{
    answer_number(lineage(book, key, text, len))
}

/// Whether the pair of a forecast passes in the machine after a book.
#[tactic(auto, unfolding(crate::specs::Calls::pair_no), using(protocol::proofs::Refused::never_zero))]
fn pair(book: &[u8], rule: u8, key: u8) -> Result<bool, CheckRefusal>
    ensures number { (told_check result).answer ≡ pair_no book.now rule key }
    ensures passes { IfOk result (λ passed. passed ≡ (pair_after book.now rule key).passes) }
{
    Rule::try_from(rule)?;
    let ran = after(book);
    ran.ran?;
    pair_rule::check(&ran.state, rule, key)
}

/// Checks the pair of a forecast by rule 1 or 2 in the machine after a book: 1 where it passes, else 0. Refused with 19, 10, 11,
/// then 2, 13, 20.
pub fn tautlichen_pair(book: &[u8], rule: u8, key: u8, passes: &mut u8) -> u8
    ensures number { result ≡ pair_no book.now rule key }
    ensures passes { passes.new ≡ lent result (one (pair_after book.now rule key).passes) passes.old }
{
    match pair(book, rule, key) {
        Ok(passed) => {
            *passes = u8::from(passed);
            0
        }
        Err(refusal) => u8::from(refusal),
    }
}

/// No two results of a call can both satisfy its promise.
#[tactic(auto, using(crate::proofs::Only::every_export))]
pub fn laws()
    ensures { EveryExport }
{}
