//! Texts in the making, which allocate nothing: what is appended goes behind what is there, while there is room.
//!
//! Stays beside `Display` and `write!`: no contract of theirs says when a write is `Ok`, and a listing can't fail
//! (`listing::listing`, `listing::refused`), nor a document for want of room (`provn::write`).
ghost use Rattle.std.specs.Prelude.{◌≡◌};
ghost use Rattle.protocol.specs.Listing.{decimal};
ghost use Rattle.lending.specs.Text.{wrote};

use arrayvec::ArrayVec;
use itoa::Buffer;
use std::io::Write;

/// The bytes, or as many of them as there is room for.
#[tactic(auto, using(crate::proofs::Appending::wrote_front))]
pub fn append<const N: usize>(text: &mut ArrayVec<u8, N>, bytes: &[u8])
    ensures { text.new.items ≡ wrote N text.old.items bytes.now }
{
    let _count = text.write(bytes);
}

/// A number in decimal.
#[tactic(auto, using(crate::proofs::Digits::decimal_same))]
pub fn append_number<const N: usize>(text: &mut ArrayVec<u8, N>, n: u16)
    ensures { text.new.items ≡ wrote N text.old.items (decimal n) }
{
    let mut digits = Buffer::new();
    append(text, digits.format(n).as_bytes());
}
