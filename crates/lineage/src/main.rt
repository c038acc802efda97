//! The lineage of a key as PROV-N: it reads a book from standard input, takes the key as its first word and, where the second
//! is `drained`, drains first; it prints the document, or `refused N`.

#![tactic(auto)]

ghost use Rattle.std.specs.Prelude.{◌≤◌, IfOk, length};

use protocol::refusal::Refusal;
use std::io;
use std::io::Write;

/// Writes the document of a key, and tells how many bytes it has.
fn document(book: &[u8], key: u8, drained: bool, text: &mut [u8]) -> Result<u16, Refusal>
    ensures { IfOk result (λ n. n ≤ length text.old) }
{
    let m = programs::machine_after(book, drained)?;
    provn::write(&m, key, text)
}

fn main(rt: HostRuntime) -> io::Result<()> {
    let mut out = io::writer(&rt);
    let Some(book) = edge::book(rt.reader())? else {
        return programs::refuse(&mut out, Refusal::MalformedBook.into());
    };
    let mut word = [0; 8];
    let key = programs::key_of(edge::word(&rt, 1, &mut word));
    let drained = edge::word(&rt, 2, &mut word) == "drained";
    // No document is longer.
    let mut text = [0; 6247];
    match document(book.as_slice(), key, drained, &mut text) {
        Ok(n) => out.write_all(&text[..usize::from(n)]),
        Err(refusal) => programs::refuse(&mut out, refusal.into()),
    }
}
