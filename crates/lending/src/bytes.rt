//! Bytes that a call answers with, once they were made in an `ArrayVec`.
ghost use Rattle.std.specs.Prelude.{◌≡◌, ◌≤◌, ◌==◌, length};

use crate::copy;
use arrayvec::ArrayVec;
use std::marker::Model;
use std::ops::DerefSlice;

/// At most `N` bytes, which lie in the value itself. A clause sees of them what it sees of an `ArrayVec`.
// Not the `ArrayVec` itself: that one isn't `Copy`, and its `clone` answers a `Result`.
#[derive(Clone, Copy)]
pub struct Bytes<const N: usize> {
    room: [u8; N],
    len: usize,
}

impl<const N: usize> Model for Bytes<N> {
    ghost use Rattle.std.specs.Prelude.{ℕ, ◌≡◌, ◌-◌, ◌≤◌, ◌++◌, length, take, drop, replicate};
    ghost use Rattle.std.specs.Coded.{coded_ℕ};
    ghost use Rattle.arrayvec.specs.ArrayVec.{ArrayVec, array_vec_code};

    ghost Value = { ArrayVec ℕ };

    ghost coded = { array_vec_code coded_ℕ };

    ghost view = { λ b. record { items = take b.len b.room } };

    // What is behind the last is 0, so that the same bytes are the same value.
    ghost invariant = { λ b. (b.len ≤ N) × (length b.room ≡ N) × (drop b.len b.room ≡ replicate (N - b.len) 0) };

    ghost inverse = { λ v. record { room = v.items ++ replicate (N - length v.items) 0; len = length v.items } };

    ghost use Rattle.std.proofs.Common.{sym, ap, ◌∙◌, arith, take-append-drop, length-take-le};

    ghost inverse_ok = { λ b h.
        let len : length (take b.len b.room) ≡ b.len = length-take-le b.len b.room (omega (arith, h.0, h.1)) in
        let room : take b.len b.room ++ replicate (N - length (take b.len b.room)) 0 ≡ b.room =
        ap (λ n. take b.len b.room ++ replicate (N - n) 0) len ∙ ap (λ rest. take b.len b.room ++ rest) (sym h.2) ∙ take-append-drop b.len b.room in
        λ i. record { room = room i; len = len i } };
}

impl<const N: usize> From<&ArrayVec<u8, N>> for Bytes<N> {
    ghost from_gives = { λ made bytes. bytes ≡ made.now };

    #[tactic(auto, unfolding(protocol::specs::Lent::over))]
    fn from(made: &ArrayVec<u8, N>) -> Bytes<N> {
        let mut room = [0; N];
        copy(&mut room, made);
        Bytes {
            room,
            len: made.len(),
        }
    }
}

impl<const N: usize> Bytes<N> {
    /// How many bytes there are.
    pub fn len(&self) -> usize
        ensures value { result ≡ length self.now.items }
        ensures fits { result ≤ N }
    {
        self.len
    }

    /// Whether there is none.
    pub fn is_empty(&self) -> bool
        ensures { result ≡ (length self.now.items == 0) }
    {
        self.as_slice().is_empty()
    }

    /// The bytes.
    pub fn as_slice(&self) -> &[u8]
        ensures value { result.now ≡ self.now.items }
        ensures fits { length result.now ≤ N }
    {
        &self.room[..self.len]
    }
}

impl<const N: usize> DerefSlice for Bytes<N> {
    type Elem = u8;

    ghost deref_gives = { λ b bytes. (bytes ≡ b.items) × (length bytes ≤ N) };

    fn deref(&self) -> &[u8] {
        self.as_slice()
    }
}
