//! Values that no run reaches, made by hand slot by slot from the table on standard input, whose head gives its
//! form. Each case is printed in a line: its name, and what the calls answer.

#![tactic(auto)]

use arrayvec::ArrayVec;
use std::io;

mod ask;
mod change;
mod row;
mod table;

fn main(rt: HostRuntime) -> io::Result<()> {
    let mut out = io::writer(&rt);
    let table: ArrayVec<u8, 32768> = edge::up_to(rt.reader())?;
    table::answer(&mut out, table.as_slice())
}
