//! The table: a line is a comment, a base or a case.

use crate::row::Row;
use crate::{ask, change};
use protocol::State;
use std::io;
use std::io::Write;

/// The state that a base's rows come to, from setup M.
fn based(rows: &[u8]) -> State {
    let mut m = change::fresh();
    for row in rows.split(|&b| b == b';' || b == b'\n') {
        change::take(&mut m, &Row::read(row));
    }
    m
}

/// A case's name is printed as it stands, up to its colon, then what each of its rows asks. A row behind which the table ends is none.
fn case<W: Write>(out: &mut W, base: &State, line: &[u8]) -> io::Result<()> {
    let colon = line.iter().skip(1).position(|&b| b == b':');
    let (name, rows) = line.split_at(colon.map_or(line.len(), |at| at + 2));
    out.write_all(name)?;
    let mut m = *base;
    for row in rows.split_inclusive(|&b| b == b';' || b == b'\n') {
        if let Some((b';' | b'\n', text)) = row.split_last() {
            let row = Row::read(text);
            ask::answer(out, &m, &row)?;
            change::take(&mut m, &row);
        }
    }
    if rows.ends_with(b"\n") {
        out.write_all(b"\n")?;
    }
    Ok(())
}

/// Answers every case from the base before it.
pub(crate) fn answer<W: Write>(out: &mut W, table: &[u8]) -> io::Result<()> {
    let mut base = change::fresh();
    for line in table.split_inclusive(|&b| b == b'\n') {
        match line.first() {
            None | Some(b'#' | b'\n') => {}
            Some(b'=') => base = based(line),
            Some(_) => case(out, &base, line)?,
        }
    }
    Ok(())
}
