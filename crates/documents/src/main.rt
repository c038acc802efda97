//! PROV-N into buffers that just fit and into ones that are a byte short: of a run, and the longest document there is, of a value
//! that no run reaches (each interaction has all those before it as its causes, and their receiver would have to be its sender).

#![tactic(auto)]

use machine::sound::Sound;
use protocol::refusal::Refusal;
use protocol::{Setup, State, Step};
use std::io;
use std::io::Write;

/// Eight actors, all at home in store 0, and sixteen interactions with no causes, at rest. The actors send in turn, each to the next.
fn sixteen() -> Result<State, Refusal> {
    let mut machine = Sound::setup(Setup {
        stores: 2,
        actors: 8,
        homes: [0; 8],
        lists: [3; 8],
    })?;
    for key in 0..16 {
        machine.take(Step::Send {
            from: key % 8,
            to: (key + 1) % 8,
            own: 0,
            word: 7,
            causes: 0,
        })?;
        machine.take(Step::Receive { key })?;
    }
    Ok(drain::drain(machine.state).state)
}

/// Each interaction is caused by all before it: so its sender's record says, and what store 0 holds of that.
fn all_caused(m: &mut State) {
    let mut causes = 0;
    for key in 0..16 {
        m.views[key * 2].causes = causes;
        m.contents[key * 2].causes = causes;
        causes |= 1 << key;
    }
}

/// Prints the bytes lent, the refusal's number, the count of bytes written, and the byte behind them, which no call may
/// touch: 238 stood there.
fn ask<W: Write>(out: &mut W, name: &str, m: &State, buffer: &mut [u8]) -> io::Result<usize> {
    let (number, len) = match provn::write(m, 15, buffer) {
        Ok(len) => (0, usize::from(len)),
        Err(refusal) => (u8::from(refusal), 0),
    };
    let room = buffer.len();
    let behind = buffer.get(len).copied().unwrap_or(238);
    writeln!(out, "{name} {room} {number} {len} {behind}")?;
    Ok(len)
}

fn main(rt: HostRuntime) -> io::Result<()> {
    let mut out = io::writer(&rt);
    // No step of it is refused, so this error is never seen; `main` answers as those of the other programs do.
    let mut m = sixteen().map_err(|_| io::ErrorKind::InvalidInput)?;
    ask(&mut out, "run", &m, &mut [238; 103])?;
    ask(&mut out, "run", &m, &mut [238; 104])?;
    ask(&mut out, "run", &m, &mut [238; 105])?;
    all_caused(&mut m);
    ask(&mut out, "longest", &m, &mut [238; 6246])?;
    let mut whole = [238; 6247];
    let len = ask(&mut out, "longest", &m, &mut whole)?;
    if let Some(text) = whole.get(..len) {
        out.write_all(text)?;
    }
    Ok(())
}
