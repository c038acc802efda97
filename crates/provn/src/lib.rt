//! The walk of a key as a PROV-N document, into a lent buffer.

#![tactic(auto)]

mod document;
mod line;

ghost use Rattle.std.specs.Prelude.{◌≡◌, ◌≤◌, IfOk, length};
ghost use Rattle.protocol.specs.Provn.{provn_of, provn_buffer};
ghost use Rattle.provn.specs.Told.{OneWritten, told_written};

use protocol::State;
use protocol::refusal::Refusal;

/// Writes the walk of a key as a PROV-N document over the start of the buffer, and answers the count of its bytes.
/// Refused as the walk is, then with `ShortBuffer` if the text is longer than the buffer; nothing is written then.
#[tactic(auto, unfolding(protocol::specs::Lent::short_no), using(unbroken::proofs::Tests::tests))]
pub fn write(m: &State, key: u8, buffer: &mut [u8]) -> Result<u16, Refusal>
    ensures result { told_written result ≡ provn_of m.now key buffer.old }
    ensures buffer { buffer.new ≡ provn_buffer m.now key buffer.old }
    ensures fits { IfOk result (λ n. n ≤ length buffer.old) }
{
    let walked = walk::walk(m, key)?;
    let text = document::document(m, &walked.keys);
    lending::put(buffer, &text)?;
    Ok(text.len() as u16)
}

/// What is told of a document leaves nothing out.
#[tactic(auto, using(crate::proofs::Told::one_written))]
pub fn laws()
    ensures { OneWritten }
{}
