// Why a message isn't taken. The numbers are those of docs/REFUSALS.md.
ghost use Rattle.std.specs.Prelude.{◌≡◌, ◌++◌, Some, codes};
ghost use Rattle.std.specs.Fmt.{decimal};
ghost use Rattle.activities.specs.Outcome.{number};

use std::error::Error;
use std::fmt;

/// Why a message is refused.
#[derive(Clone, Copy, Debug, PartialEq, Eq)]
pub enum StoreRefusal {
    /// The sender is neither the client nor the service.
    UnknownSender,
    /// A seventeenth activity, or a side's ninth additional message.
    NoRoom,
}

impl From<StoreRefusal> for u8 {
    ghost from_gives = { λ r n. n ≡ number r };

    fn from(r: StoreRefusal) -> u8 {
        match r {
            StoreRefusal::UnknownSender => 17,
            StoreRefusal::NoRoom => 18,
        }
    }
}

impl fmt::Display for StoreRefusal {
    ghost output = { λ r. Some (codes "refused " ++ decimal (number r)) };

    fn fmt<W: fmt::Write>(&self, f: &mut fmt::Formatter<W>) -> fmt::Result {
        write!(f, "refused {}", u8::from(*self))
    }
}

impl Error for StoreRefusal {}
