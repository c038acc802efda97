//! The calls of bench for the Rust program in bench/, as a static library: each is the library's own, with its clauses.

#![tactic(auto)]

ghost use Rattle.std.specs.Prelude.{◌≡◌};
ghost use Rattle.protocol.specs.Words.{pick};
ghost use Rattle.protocol.specs.Broken.{broken_of};
ghost use Rattle.protocol.specs.Book.{on_read, read_step};
ghost use Rattle.bench.specs.Received.{negotiation, filled, receive_told};
ghost use Rattle.bench.specs.Turns.{after, turns, summed, turn, broken_told, walk_told, lineage_told, drain_told, step_told};

/// How many turns found the machine broken.
#[unsafe(no_mangle)]
pub extern "C" fn bench_broken(book: &[u8], at: u8, times: u32) -> u32
    ensures { result ≡ (turns (turn broken_told at) times (after book.now, 0)).1 }
{
    bench::bench_broken(book, at, times)
}

/// The keys that the turns' walks answered, counted.
#[unsafe(no_mangle)]
pub extern "C" fn bench_walk(book: &[u8], key: u8, at: u8, times: u32) -> u32
    ensures { result ≡ (turns (turn (walk_told key) at) times (after book.now, 0)).1 }
{
    bench::bench_walk(book, key, at, times)
}

/// The bytes of the turns' PROV-N documents, counted.
#[unsafe(no_mangle)]
pub extern "C" fn bench_lineage(book: &[u8], key: u8, at: u8, times: u32) -> u32
    ensures { result ≡ (turns (turn (lineage_told key) at) times (after book.now, 0)).1 }
{
    bench::bench_lineage(book, key, at, times)
}

/// The steps that the turns' drains took, and the interactions of each machine, counted.
#[unsafe(no_mangle)]
pub extern "C" fn bench_drain(book: &[u8], at: u8, times: u32) -> u32
    ensures { result ≡ (turns (turn drain_told at) times (after book.now, 0)).1 }
{
    bench::bench_drain(book, at, times)
}

/// The numbers of the turns' steps, and the interactions of each machine, summed. The step is given as a book has it; 0 where the
/// bytes are those of none.
#[unsafe(no_mangle)]
pub extern "C" fn bench_step(book: &[u8], step: &[u8], at: u8, times: u32) -> u32
    ensures { result ≡ on_read (read_step step.now 0) 0 (λ s next. (turns (turn (step_told s) at) times (after book.now, 0)).1) }
{
    bench::bench_step(book, step, at, times)
}

/// The same without the test for a broken value in each turn; 1 if the machine is broken.
#[unsafe(no_mangle)]
pub extern "C" fn bench_step_unbroken(book: &[u8], step: &[u8], times: u32) -> u32
    ensures { result ≡ pick (broken_of (after book.now)) 1 (on_read (read_step step.now 0) 0 (λ s next. turns (λ _ sum. summed sum (step_told s (after book.now))) times 0)) }
{
    bench::bench_step_unbroken(book, step, times)
}

/// The numbers of the turns' messages, and the activities of each store, summed: each message is the last activity's, in a
/// store that holds so many.
#[unsafe(no_mangle)]
pub extern "C" fn bench_receive(held: u32, last: u32, times: u32) -> u32
    ensures { result ≡ turns (λ left sum. summed sum (receive_told (negotiation last left) (filled held))) times 0 }
{
    bench::bench_receive(held, last, times)
}
