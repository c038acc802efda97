//! The document of a chain: the interactions of these keys, as their sender records state them.
ghost use Rattle.std.specs.Prelude.{◌≡◌, ◌++◌, [], map, replicate, set, get_or, length, true, false};
ghost use Rattle.lending.specs.Text.{wrote};
ghost use Rattle.protocol.specs.Chain.{stated};
ghost use Rattle.protocol.specs.Provn.{Line, line_text, text_of, lines_of, entities, activities, derivations, relations};

use crate::line::{Text, activity, entity, used, was_derived_from, was_generated_by};
use lending::text::append;
use protocol::State;
use protocol::sets::is_in;

/// Who sent an interaction; actor 0 where no view has its number.
fn sender(m: &State, key: u8) -> u8
    ensures { result ≡ (stated m.now key).sender }
{
    match m.views.get(usize::from(key) * 2) {
        Some(w) => w.actor,
        None => 0,
    }
}

/// The causes that its sender stated; none where no view has its number.
fn causes(m: &State, key: u8) -> u16
    ensures { result ≡ (stated m.now key).causes }
{
    match m.views.get(usize::from(key) * 2) {
        Some(w) => w.causes,
        None => 0,
    }
}

/// Of what its sender used for an effect, one cause; and that the effect was derived from it.
#[tactic(auto, using(lending::proofs::Appending::wrote_append))]
fn caused_by(text: &mut Text, m: &State, effect: u8, cause: u8)
    ensures { text.new.items ≡ wrote 6247 text.old.items (line_text (Line.used (stated m.now effect).sender cause) ++ line_text (Line.was_derived_from effect cause)) }
{
    used(text, sender(m, effect), cause);
    was_derived_from(text, effect, cause);
}

/// For each cause, rising: `used` by the same sender, then `wasDerivedFrom`, effect first.
#[tactic(auto, using(crate::proofs::Turns::causes_none, crate::proofs::Turns::cause_turn, crate::proofs::Turns::other_turn))]
fn derivations(text: &mut Text, m: &State, key: u8)
    ensures { text.new.items ≡ wrote 6247 text.old.items (text_of (derivations (stated m.now key) 16 0)) }
{
    for cause in 0..16 {
        if is_in(u32::from(causes(m, key)), usize::from(cause)) {
            caused_by(text, m, key, cause);
        }
    }
}

/// `entity` for each interaction.
#[tactic(auto, using(crate::proofs::Turns::entities_none, crate::proofs::Turns::entities_turn))]
fn entities(text: &mut Text, m: &State, keys: &[u8])
    ensures { text.new.items ≡ wrote 6247 text.old.items (text_of (entities (map (stated m.now) keys.now))) }
{
    for &key in keys {
        entity(text, key);
    }
}

/// Whether an actor is declared; there are eight at most.
fn is_declared(declared: &[bool; 8], actor: u8) -> bool
    ensures { result ≡ get_or declared.now actor false }
{
    match declared.get(usize::from(actor)) {
        Some(flag) => *flag,
        None => false,
    }
}

fn declare(declared: &mut [bool; 8], actor: u8)
    ensures { declared.new ≡ set declared.old actor true }
{
    if actor < 8 {
        declared[usize::from(actor)] = true;
    }
}

/// `activity` for each sender, once, in the order first met.
#[tactic(auto, using(crate::proofs::Turns::activities_none, crate::proofs::Turns::activities_turn, crate::proofs::Turns::declared_turn))]
fn activities(text: &mut Text, m: &State, keys: &[u8])
    ensures { text.new.items ≡ wrote 6247 text.old.items (text_of (activities (replicate 8 false) (map (stated m.now) keys.now))) }
{
    let mut declared = [false; 8];
    for &key in keys {
        let actor = sender(m, key);
        if !is_declared(&declared, actor) {
            activity(text, actor);
            declare(&mut declared, actor);
        }
    }
}

/// `wasGeneratedBy` for each interaction, and then its causes.
#[tactic(auto, using(crate::proofs::Turns::relations_none, crate::proofs::Turns::relations_turn))]
fn relations(text: &mut Text, m: &State, keys: &[u8])
    ensures { text.new.items ≡ wrote 6247 text.old.items (text_of (relations (map (stated m.now) keys.now))) }
{
    for &key in keys {
        was_generated_by(text, key, sender(m, key));
        derivations(text, m, key);
    }
}

/// As much of the document as there is room for; of every walk it is the whole.
pub(crate) fn document(m: &State, keys: &[u8]) -> Text
    ensures { result.items ≡ wrote 6247 [] (text_of (lines_of (map (stated m.now) keys.now))) }
{
    let mut text = Text::new();
    append(&mut text, b"document\nprefix r <urn:runs:>\n");
    entities(&mut text, m, keys);
    activities(&mut text, m, keys);
    relations(&mut text, m, keys);
    append(&mut text, b"endDocument\n");
    text
}
