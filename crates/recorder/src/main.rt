//! The recorder: it reads a book from standard input and prints the listing of its run, or `refused N`.

#![tactic(auto)]

use listing::Text;
use protocol::refusal::Refusal;
use std::io;
use std::io::Write;

fn listing_of(book: &[u8]) -> Result<Text, Refusal> {
    let mut numbers = [0; 4096];
    let after = runs::run(book, &mut numbers);
    let counts = after.ran?;
    Ok(listing::listing(&after.state, counts.steps, counts.taken))
}

fn main(rt: HostRuntime) -> io::Result<()> {
    let mut out = io::writer(&rt);
    let listed = match edge::book(rt.reader())? {
        Some(book) => listing_of(book.as_slice()),
        None => Err(Refusal::MalformedBook),
    };
    match listed {
        Ok(text) => out.write_all(text.as_slice()),
        Err(refusal) => programs::refuse(&mut out, refusal.into()),
    }
}
