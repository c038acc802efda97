//! The calls of tautlichen for C, C++ and Rust, as a static library: each is the library's own, with its clauses.
#![tactic(auto)]

ghost use Rattle.std.specs.Prelude.{◌≡◌, length};
ghost use Rattle.protocol.specs.Words.{one};
ghost use Rattle.protocol.specs.Run.{run_of, buffer_of};
ghost use Rattle.reaches.specs.Reaches.{keys_of};
ghost use Rattle.protocol.specs.Lent.{lent, over};
ghost use Rattle.tautlichen.specs.Calls.{list_text, list_no, drain_after, drain_text, drain_no, walk_after, walk_no, lineage_text, lineage_no, pair_after, pair_no};

/// Runs a book, and writes each step's number into the answers. Refused with 10, 11, 12.
#[unsafe(no_mangle)]
pub extern "C" fn tautlichen_run(book: &[u8], answers: &mut [u8]) -> u8
    ensures number { result ≡ (run_of book.now (length answers.old)).answer }
    ensures answers { answers.new ≡ buffer_of book.now answers.old }
{
    tautlichen::tautlichen_run(book, answers)
}

/// The same, with the listing in `text` and its length in `len`. Refused with 10, 11, 12, then 14.
#[unsafe(no_mangle)]
pub extern "C" fn tautlichen_list(
    book: &[u8],
    answers: &mut [u8],
    text: &mut [u8],
    len: &mut u16,
) -> u8
    ensures number { result ≡ list_no book.now answers.old text.old }
    ensures answers { answers.new ≡ lent result (buffer_of book.now answers.old) answers.old }
    ensures text { text.new ≡ lent result (over (list_text book.now answers.old) text.old) text.old }
    ensures len { len.new ≡ lent result (length (list_text book.now answers.old)) len.old }
{
    tautlichen::tautlichen_list(book, answers, text, len)
}

/// Drains the machine after a book: the count of steps, and the listing after it with its length. Refused with 10, 11, then 5,
/// then 14.
#[unsafe(no_mangle)]
pub extern "C" fn tautlichen_drain(
    book: &[u8],
    text: &mut [u8],
    len: &mut u16,
    count: &mut u16,
) -> u8
    ensures number { result ≡ drain_no book.now text.old }
    ensures text { text.new ≡ lent result (over (drain_text book.now) text.old) text.old }
    ensures len { len.new ≡ lent result (length (drain_text book.now)) len.old }
    ensures count { count.new ≡ lent result (drain_after book.now).count count.old }
{
    tautlichen::tautlichen_drain(book, text, len, count)
}

/// Walks back from a key in the machine after a book: the keys met, and how many. Refused with 10, 11, then 2, 13, then 14.
#[unsafe(no_mangle)]
pub extern "C" fn tautlichen_walk(
    book: &[u8],
    key: u8,
    keys: &mut [u8],
    count: &mut u8,
    lookups: &mut u8,
) -> u8
    ensures number { result ≡ walk_no book.now key keys.old }
    ensures keys { keys.new ≡ lent result (over (keys_of (walk_after book.now key)) keys.old) keys.old }
    ensures count { count.new ≡ lent result (walk_after book.now key).count count.old }
    ensures lookups { lookups.new ≡ lent result (walk_after book.now key).lookups lookups.old }
{
    tautlichen::tautlichen_walk(book, key, keys, count, lookups)
}

/// Writes the walk of a key in the machine after a book as a PROV-N document, and its length. Refused with 10, 11, then 2, 13,
/// then 14.
#[unsafe(no_mangle)]
pub extern "C" fn tautlichen_lineage(book: &[u8], key: u8, text: &mut [u8], len: &mut u16) -> u8
    ensures number { result ≡ lineage_no book.now key text.old }
    ensures text { text.new ≡ lent result (over (lineage_text book.now key) text.old) text.old }
    ensures len { len.new ≡ lent result (length (lineage_text book.now key)) len.old }
{
    tautlichen::tautlichen_lineage(book, key, text, len)
}

/// Checks the pair of a forecast by rule 1 or 2 in the machine after a book: 1 where it passes, else 0. Refused with 19, 10, 11,
/// then 2, 13, 20.
#[unsafe(no_mangle)]
pub extern "C" fn tautlichen_pair(book: &[u8], rule: u8, key: u8, passes: &mut u8) -> u8
    ensures number { result ≡ pair_no book.now rule key }
    ensures passes { passes.new ≡ lent result (one (pair_after book.now rule key).passes) passes.old }
{
    tautlichen::tautlichen_pair(book, rule, key, passes)
}
