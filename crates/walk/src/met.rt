// What a walk has met so far, and what it answers.
ghost use Rattle.std.specs.Prelude.{◌≡◌, ◌<◌, ◌&&◌, false, get_or, length};
ghost use Rattle.protocol.specs.Words.{bit};
ghost use Rattle.protocol.specs.Walk.{added, is_due, looked_up};
ghost use Rattle.walk.specs.Told.{told_met};

use arrayvec::ArrayVec;
use lending::Bytes;
use protocol::sets::is_in;
use std::marker::Model;

/// What a walk answers: the keys met, in the order first met, and how many store entries were looked up.
#[derive(Clone, Copy)]
pub struct Walk {
    pub keys: Bytes<16>,
    pub lookups: u8,
}

// The record of its fields. With no model of its own, what holds a `Bytes` isn't handed on by value twice: the check doesn't cover
// that yet.
impl Model for Walk {
    ghost use Rattle.walk.specs.Answer.{Answer};

    ghost Value = { Answer };

    ghost view = { λ w. record { keys = w.keys; lookups = w.lookups } };

    ghost inverse = { λ a. record { keys = a.keys; lookups = a.lookups } };
}

/// A walk on its way. A clause sees what it would answer now.
#[derive(Drop)]
pub(crate) struct Trail {
    pub(crate) keys: ArrayVec<u8, 16>,
    pub(crate) lookups: u8,
}

impl Model for Trail {
    ghost use Rattle.walk.specs.Answer.{Answer};

    ghost Value = { Answer };

    ghost view = { λ t. record { keys = t.keys; lookups = t.lookups } };
}

impl Trail {
    #[tactic(auto, using(crate::proofs::Marks::marked_listed))]
    fn has_met(&self, key: u8) -> bool
        requires { key < 16 }
        ensures { result ≡ get_or (told_met self.now).met key false }
    {
        self.keys.contains(&key)
    }

    /// A cause of the set that is not met.
    pub(crate) fn is_due(&self, causes: u16, cause: u8) -> bool
        requires { cause < 16 }
        ensures { result ≡ bit causes cause && is_due (told_met self.now) cause }
    {
        is_in(u32::from(causes), cause as usize) && !self.has_met(cause)
    }

    /// One store entry more is looked up.
    pub(crate) fn look_up(&mut self)
        requires { self.old.lookups < 255 }
        ensures { told_met self.new ≡ looked_up (told_met self.old) }
    {
        self.lookups += 1;
    }

    /// A key is answered once, in the order first met.
    #[tactic(auto, using(crate::proofs::Marks::marked_more, crate::proofs::Marks::padded_more))]
    pub(crate) fn add(&mut self, key: u8)
        requires { length self.old.keys.items < 16 }
        ensures { told_met self.new ≡ added (told_met self.old) key }
    {
        self.keys.push(key);
    }
}
