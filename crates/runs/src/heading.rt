// What a book says of itself: its setup, and how many steps it has and where; whether it is one.
ghost use Rattle.std.specs.Prelude.{◌≡◌, ◌+◌, ◌*◌, ◌<◌, ltb};
ghost use Rattle.protocol.specs.Book.{actors_read, byte, count_of, setup_read, start_of, valid_from, well_formed};
ghost use Rattle.protocol.specs.Words.{pick, table};

use crate::reader::Reader;
use protocol::Setup;

/// The byte at i, 0 behind the end.
fn byte(book: &[u8], i: usize) -> u8
    ensures { result ≡ byte book.now i }
{
    if i < book.len() { book[i] } else { 0 }
}

/// Homes or lists, 0 behind the last actor.
fn column(book: &[u8], first: usize) -> [u8; 8]
    requires { first < 4 }
    ensures { result ≡ table (λ a. pick (ltb a (actors_read book.now)) (byte book.now (first + 2 * a)) 0) 8 }
{
    let actors = usize::from(byte(book, 1));
    let mut cells = [0; 8];
    for a in 0..8 {
        cells[a] = if a < actors {
            byte(book, first + 2 * a)
        } else {
            0
        };
    }
    cells
}

#[tactic(auto, unfolding(protocol::specs::Book::setup_read))]
pub(crate) fn setup_read(book: &[u8]) -> Setup
    ensures { result ≡ setup_read book.now }
{
    Setup {
        stores: byte(book, 0),
        actors: byte(book, 1),
        homes: column(book, 2),
        lists: column(book, 3),
    }
}

/// Where the steps start.
#[tactic(auto, unfolding(protocol::specs::Book::start_of))]
pub(crate) fn start_of(book: &[u8]) -> usize
    ensures { result ≡ start_of book.now }
{
    4 + 2 * usize::from(byte(book, 1))
}

/// How many steps there are.
#[tactic(auto, unfolding(protocol::specs::Book::count_of))]
pub(crate) fn count_of(book: &[u8]) -> u16
    ensures { result ≡ count_of book.now }
{
    let at = 2 + 2 * usize::from(byte(book, 1));
    u16::from(byte(book, at)) + u16::from(byte(book, at + 1)) * 256
}

/// Whether n steps stand from here to the end.
fn are_steps(book: &[u8], n: u16, at: usize) -> bool
    ensures { result ≡ valid_from book.now n at }
{
    let mut reader = Reader { book, at };
    for i in 0..n {
        let Some(_step) = reader.step() else {
            return false;
        };
    }
    reader.at == book.len()
}

#[tactic(auto, unfolding(protocol::specs::Book::well_formed))]
pub(crate) fn well_formed(book: &[u8]) -> bool
    ensures { result ≡ well_formed book.now }
{
    let start = start_of(book);
    let count = count_of(book);
    start <= book.len() && count <= 4096 && are_steps(book, count, start)
}
