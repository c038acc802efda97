//! What is written for a caller: bytes over the start of a buffer that it lends, texts in the making, and the bytes of an answer.

#![tactic(auto)]

mod bytes;
pub mod text;

ghost use Rattle.std.specs.Prelude.{◌≡◌, min, length, take};
ghost use Rattle.protocol.specs.Lent.{lent, short_no, over};
ghost use Rattle.protocol.specs.Refusal.{answer};

pub use bytes::Bytes;
use protocol::refusal::Refusal;

/// The bytes go over the start of the buffer, or as many of them as it has room for; those behind stay.
#[tactic(auto, unfolding(protocol::specs::Lent::over))]
pub fn copy(to: &mut [u8], from: &[u8])
    ensures { to.new ≡ over (take (min (length from.now) (length to.old)) from.now) to.old }
{
    let n = from.len().min(to.len());
    to[..n].copy_from_slice(&from[..n]);
}

/// All of the bytes, or `ShortBuffer` where they are more than the buffer has; nothing is written then.
#[tactic(auto, unfolding(protocol::specs::Lent::short_no))]
pub fn put(to: &mut [u8], bytes: &[u8]) -> Result<(), Refusal>
    ensures number { answer result ≡ short_no bytes.now to.old }
    ensures bytes { to.new ≡ lent (answer result) (over bytes.now to.old) to.old }
{
    if to.len() < bytes.len() {
        return Err(Refusal::ShortBuffer);
    }
    copy(to, bytes);
    Ok(())
}
