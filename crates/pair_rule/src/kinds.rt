// What a data word means: the high byte a kind, the low 24 bits a bundle number.
ghost use Rattle.std.specs.Prelude.{◌≡◌};
ghost use Rattle.pairing.specs.Pair.{bundle_of, is_a, is_part};
ghost use Rattle.pair_rule.specs.Told.{kind_number};

use protocol::Contents;

const BUNDLES: u32 = 0x100_0000;

#[derive(Clone, Copy, Debug, PartialEq, Eq)]
pub(crate) enum Kind {
    Weights,
    Scaler,
    Forecast,
}

impl From<Kind> for u32 {
    ghost from_gives = { λ k n. n ≡ kind_number k };

    fn from(kind: Kind) -> u32 {
        match kind {
            Kind::Weights => 1,
            Kind::Scaler => 2,
            Kind::Forecast => 3,
        }
    }
}

pub(crate) fn is_a(c: Contents, kind: Kind) -> bool
    ensures { result ≡ is_a (kind_number kind) c }
{
    c.word / BUNDLES == u32::from(kind)
}

pub(crate) fn bundle(c: Contents) -> u32
    ensures { result ≡ bundle_of c.word }
{
    c.word % BUNDLES
}

/// One of the two that travel together.
pub(crate) fn is_part(c: Contents) -> bool
    ensures { result ≡ is_part c }
{
    is_a(c, Kind::Weights) || is_a(c, Kind::Scaler)
}
