// What stands at a place of the bytes: a message, and the place behind it.
ghost use Rattle.std.specs.Prelude.{◌≡◌, ◌+◌, ◌≤◌, ◌<◌, length, IfSome};
ghost use Rattle.std.specs.Option.{unwrap_or};
ghost use Rattle.activities.specs.Form.{byte as byte_of, word as word_of, count_of, activity_at, said_at, message_at, width_of, next_at};

use activities::{Activity, Message, Said};

/// The byte at a place, 0 behind the last.
fn byte(s: &[u8], i: usize) -> u8
    ensures { result ≡ byte_of s.now i }
{
    s.get(i).copied().unwrap_or(0)
}

/// How many messages there are.
pub(crate) fn count(s: &[u8]) -> u16
    ensures { result ≡ count_of s.now }
{
    u16::from_le_bytes([byte(s, 0), byte(s, 1)])
}

/// Four bytes, low first.
#[tactic(auto, unfolding(activities::specs::Form::word))]
fn word(s: &[u8], at: usize) -> u32
    requires { at < length s.now + 64 }
    ensures { result ≡ word_of s.now at }
{
    u32::from_le_bytes([
        byte(s, at),
        byte(s, at + 1),
        byte(s, at + 2),
        byte(s, at + 3),
    ])
}

#[tactic(auto, unfolding(activities::specs::Form::activity_at))]
fn activity(s: &[u8], at: usize) -> Activity
    requires { at ≤ length s.now }
    ensures { result ≡ activity_at s.now at }
{
    Activity {
        session: word(s, at + 4),
        nonce: word(s, at + 8),
        thread: word(s, at + 12),
        client: word(s, at + 16),
        service: word(s, at + 20),
    }
}

#[tactic(auto, unfolding(activities::specs::Form::said_at))]
fn said(s: &[u8], at: usize) -> Said
    requires { at ≤ length s.now }
    ensures { result ≡ said_at s.now at }
{
    let first = word(s, at + 25);
    let second = word(s, at + 29);
    match byte(s, at + 24) {
        0 => Said::Negotiation {
            list: first,
            accepted: second,
            extra: word(s, at + 33),
        },
        1 => Said::Invocation {
            extra: first,
            word: second,
        },
        2 => Said::Result {
            extra: first,
            word: second,
        },
        3 => Said::Finished { count: first },
        _ => Said::Additional { extra: first },
    }
}

/// The message at a place.
#[tactic(auto, unfolding(activities::specs::Form::message_at))]
pub(crate) fn message(s: &[u8], at: usize) -> Message
    requires { at ≤ length s.now }
    ensures { result ≡ message_at s.now at }
{
    Message {
        sender: word(s, at),
        activity: activity(s, at),
        said: said(s, at),
    }
}

/// How many bytes the fields of a kind take.
#[tactic(auto, unfolding(activities::specs::Form::width_of))]
fn width(kind: u8) -> Option<usize>
    ensures bytes { unwrap_or result 0 ≡ width_of kind }
    ensures known { IfSome result (λ n. (0 < n) × (n ≤ 12)) }
{
    match kind {
        0 => Some(12),
        1 | 2 => Some(8),
        3 | 4 => Some(4),
        _ => None,
    }
}

/// The place behind the message at a place, where one is there.
#[tactic(auto, unfolding(activities::specs::Form::next_at))]
pub(crate) fn next(s: &[u8], at: usize) -> Option<usize>
    requires { at ≤ length s.now }
    ensures place { unwrap_or result 0 ≡ next_at s.now at }
    ensures inside { IfSome result (λ n. (0 < n) × (n ≤ length s.now)) }
{
    let end = at + 25 + width(*s.get(at + 24)?)?;
    if end <= s.len() { Some(end) } else { None }
}
