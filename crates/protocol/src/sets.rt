//! Sets of small numbers, by bits: bit i for number i.
ghost use Rattle.std.specs.Prelude.{◌≡◌, ◌<◌};
ghost use Rattle.protocol.specs.Words.{bit, joined};

/// Whether a number below 32 is in a set.
pub fn is_in(set: u32, i: usize) -> bool
    requires { i < 32 }
    ensures { result ≡ bit set i }
{
    (set >> i) % 2 == 1
}

/// A set with a number below 32 in it.
pub fn with(set: u32, i: usize) -> u32
    requires { i < 32 }
    ensures { result ≡ joined set i }
{
    set | (1 << i)
}
