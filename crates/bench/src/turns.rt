// A call made turn after turn: the loop that all measured calls share.
ghost use Rattle.std.specs.Prelude.{◌≡◌, ℕ};
ghost use Rattle.bench.specs.Turns.{Makes, Tells, summed, turns};

/// Turns n, n - 1, .., 1, each on what the last one left: what they tell, summed modulo 2^32.
pub(crate) fn turns<S: Copy, F: Fn(&mut S, u32) -> u32>(from: S, times: u32, turn: F) -> u32
    requires { F.IsAlwaysCallable turn }
    ensures { (made : ℕ → S × ℕ → S × ℕ) → Makes (F.post turn) made → result ≡ (turns made times (from, 0)).1 }
{
    let mut state = from;
    let mut sum: u32 = 0;
    for left in (1..=times).rev() {
        sum = sum.wrapping_add(turn(&mut state, left));
    }
    sum
}

/// The same for a call that leaves nothing.
pub(crate) fn calls<F: Fn(u32) -> u32>(times: u32, call: F) -> u32
    requires { F.IsAlwaysCallable call }
    ensures { (told : ℕ → ℕ) → Tells (F.post call) told → result ≡ turns (λ left sum. summed sum (told left)) times 0 }
{
    turns((), times, |_, left| call(left))
}
