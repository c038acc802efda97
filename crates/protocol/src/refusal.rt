//! Why a call is refused. The numbers are those of docs/REFUSALS.md.
ghost use Rattle.std.specs.Prelude.{◌≡◌, ◌++◌, Some, codes};
ghost use Rattle.std.specs.Fmt.{decimal};
ghost use Rattle.protocol.specs.Refusal.{answer, number};

use std::error::Error;
use std::fmt;

/// Why a call is refused, in the order of the numbers 1 to 14.
#[derive(Clone, Copy, Debug, PartialEq, Eq, Hash)]
pub enum Refusal {
    BrokenMachine,
    NotInMachine,
    SameEnds,
    NoKeyLeft,
    StoreDown,
    StoreUp,
    NotReady,
    NotListed,
    UnknownCause,
    MalformedBook,
    IllegalSetup,
    FewAnswers,
    OpenInteraction,
    ShortBuffer,
}

impl From<Refusal> for u8 {
    ghost from_gives = { λ r n. n ≡ number r };

    fn from(r: Refusal) -> u8 {
        match r {
            Refusal::BrokenMachine => 1,
            Refusal::NotInMachine => 2,
            Refusal::SameEnds => 3,
            Refusal::NoKeyLeft => 4,
            Refusal::StoreDown => 5,
            Refusal::StoreUp => 6,
            Refusal::NotReady => 7,
            Refusal::NotListed => 8,
            Refusal::UnknownCause => 9,
            Refusal::MalformedBook => 10,
            Refusal::IllegalSetup => 11,
            Refusal::FewAnswers => 12,
            Refusal::OpenInteraction => 13,
            Refusal::ShortBuffer => 14,
        }
    }
}

impl fmt::Display for Refusal {
    ghost output = { λ r. Some (codes "refused " ++ decimal (number r)) };

    fn fmt<W: fmt::Write>(&self, f: &mut fmt::Formatter<W>) -> fmt::Result {
        write!(f, "refused {}", u8::from(*self))
    }
}

impl Error for Refusal {}

/// 0 where it is taken, or the refusal's number.
pub fn answer_number(taken: Result<(), Refusal>) -> u8
    ensures { result ≡ answer taken }
{
    match taken {
        Ok(()) => 0,
        Err(refusal) => u8::from(refusal),
    }
}
