//! What the programs share over the protocol: the machine that they are asked of, the key, and the line of a refusal.
#![tactic(auto)]

ghost use Rattle.std.specs.Prelude.{◌≡◌, ◌≢◌, ◌<◌, ℕ, OnOk};
ghost use Rattle.std.specs.Fmt.{decimal};
ghost use Rattle.std.specs.Io.KnownBytes.{Appends};
ghost use Rattle.protocol.specs.Listing.{refused_line};
ghost use Rattle.programs.specs.After.{OneMachine, machine_after, told_machine};

use protocol::State;
use protocol::refusal::Refusal;
use std::io;
use std::io::Write;

/// The machine after the run of a book, and after a drain where one is asked for; refused with the run's own, then the drain's.
#[tactic(auto, unfolding(crate::specs::After::machine_after))]
pub fn machine_after(book: &[u8], drained: bool) -> Result<State, Refusal>
    ensures { told_machine result ≡ machine_after book.now drained }
{
    let mut numbers = [0; 4096];
    let after = runs::run(book, &mut numbers);
    after.ran?;
    if !drained {
        return Ok(after.state);
    }
    let after = drain::drain(after.state);
    after.taken?;
    Ok(after.state)
}

/// The key that a word names, in decimal with no sign and no zeros in front. No machine has a key 255, so a word that names none
/// is refused as a key that isn't there.
pub fn key_of(word: &str) -> u8
    ensures read { (n : ℕ) → n < 256 → word.now ≡ decimal n → result ≡ n }
    ensures none { result ≢ 255 → word.now ≡ decimal result }
{
    edge::number(word).unwrap_or(255)
}

/// Prints `refused N`, a line of its own, handed to the writer at once.
pub fn refuse<W: Write>(out: &mut W, number: u8) -> io::Result<()>
    ensures { OnOk result (Appends (W.contents out.old) (W.contents out.new) (refused_line number)) }
{
    out.write_all(listing::refused(number).as_slice())
}

/// What is told of a machine after a book leaves nothing out.
#[tactic(auto, using(crate::proofs::Told::one_machine))]
pub fn laws()
    ensures { OneMachine }
{}
