//! A reader stands at a place of a book, and moves over its bytes. It never copies them.
ghost use Rattle.std.specs.Prelude.{◌≡◌, ◌+◌, ◌*◌, ◌<◌, ◌≤◌, IfNone, IfSome, MatchOption, None, Some, length};
ghost use Rattle.protocol.specs.Book.{byte, low16, low32, read_step};

use protocol::Step;

/// The bytes of a book, which are only lent, and a place in them.
#[derive(Clone, Copy)]
pub struct Reader<'a> {
    pub book: &'a [u8],
    pub at: usize,
}

impl<'a> Reader<'a> {
    /// The next byte.
    fn byte(&mut self) -> Option<u8>
        ensures some { IfSome result (λ b. (self.old.at < length self.old.book.now) × (b ≡ byte self.old.book.now self.old.at) × (self.new.at ≡ self.old.at + 1)) }
        ensures none { IfNone result (length self.old.book.now ≤ self.old.at) }
        ensures same { self.new.book ≡ self.old.book }
    {
        let &b = self.book.get(self.at)?;
        self.at += 1;
        Some(b)
    }

    /// A number of two bytes, low first.
    fn number(&mut self) -> Option<u16>
        ensures some { IfSome result (λ n. (self.old.at + 1 < length self.old.book.now) × (n ≡ low16 self.old.book.now self.old.at) × (self.new.at ≡ self.old.at + 2)) }
        ensures none { IfNone result (length self.old.book.now ≤ self.old.at + 1) }
        ensures same { self.new.book ≡ self.old.book }
    {
        let low = self.byte()?;
        let high = self.byte()?;
        Some(u16::from(low) + u16::from(high) * 256)
    }

    /// A number of four bytes, low first.
    fn word(&mut self) -> Option<u32>
        ensures some { IfSome result (λ n. (self.old.at + 3 < length self.old.book.now) × (n ≡ low32 self.old.book.now self.old.at) × (self.new.at ≡ self.old.at + 4)) }
        ensures none { IfNone result (length self.old.book.now ≤ self.old.at + 3) }
        ensures same { self.new.book ≡ self.old.book }
    {
        let low = self.number()?;
        let high = self.number()?;
        Some(u32::from(low) + u32::from(high) * 65536)
    }

    /// The step that stands here. Where none does, no more is said of the place.
    // One `match`, longer than other functions: an arm for each kind, with its fields in the order of docs/BOOK.md.
    #[tactic(auto, unfolding(protocol::specs::Book::read_step, protocol::specs::Book::width_of, protocol::specs::Book::step_made, protocol::specs::Book::short_made, protocol::specs::Book::repair_made))]
    pub fn step(&mut self) -> Option<Step>
        ensures step { MatchOption result (read_step self.old.book.now self.old.at ≡ None) (λ s. read_step self.old.book.now self.old.at ≡ Some (s, self.new.at)) }
        ensures same { self.new.book ≡ self.old.book }
    {
        Some(match self.byte()? {
            1 => Step::Send {
                from: self.byte()?,
                to: self.byte()?,
                own: self.byte()?,
                word: self.word()?,
                causes: self.number()?,
            },
            2 => Step::Receive { key: self.byte()? },
            3 => Step::PreCheck {
                actor: self.byte()?,
            },
            4 => Step::SendRecord {
                actor: self.byte()?,
            },
            5 => Step::Timeout {
                actor: self.byte()?,
                store: self.byte()?,
            },
            6 => Step::TakeRecord {
                store: self.byte()?,
                key: self.byte()?,
                role: self.byte()?,
            },
            7 => Step::TakeAck {
                store: self.byte()?,
                key: self.byte()?,
                role: self.byte()?,
            },
            8 => Step::PostCheck {
                actor: self.byte()?,
            },
            9 => Step::TakeRepair {
                key: self.byte()?,
                role: self.byte()?,
            },
            10 => Step::SendUpdate {
                key: self.byte()?,
                role: self.byte()?,
            },
            11 => Step::TakeUpdate {
                store: self.byte()?,
                key: self.byte()?,
                role: self.byte()?,
            },
            12 => Step::TakeUack {
                store: self.byte()?,
                key: self.byte()?,
                role: self.byte()?,
            },
            13 => Step::Expire {
                key: self.byte()?,
                role: self.byte()?,
            },
            14 => Step::Lose {
                what: self.byte()?,
                store: self.byte()?,
                key: self.byte()?,
                role: self.byte()?,
            },
            15 => Step::Crash {
                store: self.byte()?,
            },
            16 => Step::Restart {
                store: self.byte()?,
            },
            17 => Step::Checkpoint {
                store: self.byte()?,
            },
            18 => Step::Duplicate {
                what: self.byte()?,
                store: self.byte()?,
                key: self.byte()?,
                role: self.byte()?,
            },
            _ => return None,
        })
    }
}
