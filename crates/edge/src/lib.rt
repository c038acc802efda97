//! What the programs share: standard input as bytes, the program's words, and lines on a writer. Nothing is allocated.
#![tactic(auto)]

mod input;
mod print;
mod words;

pub use input::{book, up_to};
pub use print::{Fields, line};
pub use words::{number, word};
