//! The lines of a document, one function for each kind: an interaction goes by its key, an actor by its number.
ghost use Rattle.std.specs.Prelude.{◌≡◌, ◌++◌};
ghost use Rattle.lending.specs.Text.{wrote};
ghost use Rattle.protocol.specs.Listing.{decimal};
ghost use Rattle.protocol.specs.Provn.{Line, line_text};

use arrayvec::ArrayVec;
use lending::text::{append, append_number};

/// The text of a document: the longest has as many bytes.
pub(crate) type Text = ArrayVec<u8, 6247>;

/// The name of an interaction, `r:i` and its key, or of an actor, `r:a` and its number.
#[tactic(auto, using(lending::proofs::Appending::wrote_append))]
fn name(text: &mut Text, kind: &[u8], n: u8)
    ensures { text.new.items ≡ wrote 6247 text.old.items (kind.now ++ decimal n) }
{
    append(text, kind);
    append_number(text, u16::from(n));
}

#[tactic(auto, unfolding(lending::specs::Text::wrote, protocol::specs::Provn::words_of), using(lending::proofs::Appending::wrote_append))]
pub(crate) fn entity(text: &mut Text, key: u8)
    ensures { text.new.items ≡ wrote 6247 text.old.items (line_text (Line.entity key)) }
{
    append(text, b"entity(");
    name(text, b"r:i", key);
    append(text, b")\n");
}

#[tactic(auto, unfolding(lending::specs::Text::wrote, protocol::specs::Provn::words_of), using(lending::proofs::Appending::wrote_append))]
pub(crate) fn activity(text: &mut Text, actor: u8)
    ensures { text.new.items ≡ wrote 6247 text.old.items (line_text (Line.activity actor)) }
{
    append(text, b"activity(");
    name(text, b"r:a", actor);
    append(text, b",-,-)\n");
}

#[tactic(auto, unfolding(lending::specs::Text::wrote, protocol::specs::Provn::words_of), using(lending::proofs::Appending::wrote_append))]
pub(crate) fn was_generated_by(text: &mut Text, key: u8, actor: u8)
    ensures { text.new.items ≡ wrote 6247 text.old.items (line_text (Line.was_generated_by key actor)) }
{
    append(text, b"wasGeneratedBy(");
    name(text, b"r:i", key);
    name(text, b",r:a", actor);
    append(text, b",-)\n");
}

#[tactic(auto, unfolding(lending::specs::Text::wrote, protocol::specs::Provn::words_of), using(lending::proofs::Appending::wrote_append))]
pub(crate) fn used(text: &mut Text, actor: u8, key: u8)
    ensures { text.new.items ≡ wrote 6247 text.old.items (line_text (Line.used actor key)) }
{
    append(text, b"used(");
    name(text, b"r:a", actor);
    name(text, b",r:i", key);
    append(text, b",-)\n");
}

#[tactic(auto, unfolding(lending::specs::Text::wrote, protocol::specs::Provn::words_of), using(lending::proofs::Appending::wrote_append))]
pub(crate) fn was_derived_from(text: &mut Text, effect: u8, cause: u8)
    ensures { text.new.items ≡ wrote 6247 text.old.items (line_text (Line.was_derived_from effect cause)) }
{
    append(text, b"wasDerivedFrom(");
    name(text, b"r:i", effect);
    name(text, b",r:i", cause);
    append(text, b")\n");
}
