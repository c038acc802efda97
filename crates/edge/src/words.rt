// The program's words.
ghost use Rattle.std.specs.Prelude.{◌≡◌, ◌<◌, ◌≤◌, ℕ, length, IfSome, Some};
ghost use Rattle.std.specs.Fmt.{decimal};

use std::rt::Env;

/// The word at a place, 1 for the first, read into the buffer; one that is missing, longer than the buffer or not
/// UTF-8 reads as an empty one.
pub fn word<'a>(rt: &impl Env, at: usize, buf: &'a mut [u8]) -> &'a str
    ensures { length result.now ≤ length buf.old }
{
    match rt.arg(at, buf) {
        Ok(n) => str::from_utf8(&buf[..n]).unwrap_or(""),
        Err(_) => "",
    }
}

/// The number up to 255 that prints as the word: `parse` would take a sign and leading zeros, too.
#[tactic(auto, using(crate::proofs::Decimal::is_read))]
pub fn number(word: &str) -> Option<u8>
    ensures some { IfSome result (λ n. word.now ≡ decimal n) }
    ensures every { (n : ℕ) → n < 256 → word.now ≡ decimal n → result ≡ Some n }
{
    match word.parse::<u8>() {
        Ok(n) if itoa::Buffer::new().format(n) == word => Some(n),
        _ => None,
    }
}
