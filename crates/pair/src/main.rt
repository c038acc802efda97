//! Whether a forecast's weights and scaler belong together: it reads a book from standard input, takes the rule and the key as its
//! words and, where a third is `drained`, drains first; it prints `yes`, `no` or `refused N`.

#![tactic(auto)]

use pair_rule::{CheckRefusal, Rule};
use protocol::refusal::Refusal;
use std::io;

fn check(book: &[u8], rule: u8, key: u8, drained: bool) -> Result<bool, CheckRefusal> {
    let m = programs::machine_after(book, drained)?;
    pair_rule::check(&m, rule, key)
}

fn main(rt: HostRuntime) -> io::Result<()> {
    let mut out = io::writer(&rt);
    let mut word = [0; 8];
    // 0 is no rule either. An unknown one is refused before the book is read.
    let rule = edge::number(edge::word(&rt, 1, &mut word)).unwrap_or(0);
    if let Err(refusal) = Rule::try_from(rule) {
        return programs::refuse(&mut out, refusal.into());
    }
    let Some(book) = edge::book(rt.reader())? else {
        return programs::refuse(&mut out, Refusal::MalformedBook.into());
    };
    let key = programs::key_of(edge::word(&rt, 2, &mut word));
    let drained = edge::word(&rt, 3, &mut word) == "drained";
    match check(book.as_slice(), rule, key, drained) {
        Ok(passes) => edge::line(&mut out, if passes { "yes" } else { "no" }),
        Err(refusal) => programs::refuse(&mut out, refusal.into()),
    }
}
