//! A row of the table: a letter, and numbers, a space before each.
ghost use Rattle.std.specs.Prelude.{◌<◌};

use protocol::Step;
use runs::reader::Reader;

// Stays an array with a count beside it: zeros at a row's end can be left out, so the numbers behind the last are read, too.
#[derive(Clone, Copy)]
pub(crate) struct Row {
    pub letter: u8,
    /// How many numbers there are, by their spaces.
    count: u8,
    /// The first number stands at 1; zeros stand behind the last.
    pub numbers: [u8; 64],
}

impl Row {
    fn lettered(letter: u8) -> Row {
        Row {
            letter,
            count: 0,
            numbers: [0; 64],
        }
    }

    /// The last letter, or other mark above the digits, and what stands behind it.
    pub(crate) fn read(text: &[u8]) -> Row {
        let mut row = Row::lettered(b' ');
        for &byte in text {
            row.feed(byte);
        }
        row
    }

    fn feed(&mut self, byte: u8) {
        if byte == b' ' {
            self.count = self.count.wrapping_add(1);
        } else if byte <= b'9' {
            let n = &mut self.numbers[usize::from(self.count % 64)];
            *n = n.wrapping_mul(10).wrapping_add(byte.wrapping_sub(b'0'));
        } else {
            *self = Row::lettered(byte);
        }
    }

    /// The step whose bytes in a book the numbers are.
    pub(crate) fn step(&self) -> Option<Step> {
        let book = &self.numbers;
        Reader { book, at: 1 }.step()
    }

    /// The numbers behind the first, as the bytes of a book.
    pub(crate) fn book(&self) -> Option<&[u8]> {
        self.numbers.get(2..=usize::from(self.count))
    }
}

/// The number of a view.
pub(crate) fn view_at(key: u8, role: u8) -> usize
    ensures { result < 32 }
{
    (usize::from(key) * 2 + usize::from(role)) % 32
}

/// A view at a store.
#[derive(Clone, Copy)]
pub(crate) struct Place {
    pub p: usize,
    pub v: usize,
    ghost p_bound: { p < 8 },
    ghost v_bound: { v < 32 },
}

impl Place {
    pub(crate) fn new(store: u8, key: u8, role: u8) -> Place {
        Place {
            p: usize::from(store % 8),
            v: view_at(key, role),
        }
    }

    pub(crate) fn number(self) -> usize
        ensures { result < 256 }
    {
        self.p * 32 + self.v
    }
}
