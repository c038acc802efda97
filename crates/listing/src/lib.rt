//! What the recorder prints of a run, as text: the listing, or the refusal.

#![tactic(auto)]

ghost use Rattle.std.specs.Prelude.{◌≡◌, ◌++◌, ◌∷◌, [], ◌<◌};
ghost use Rattle.lending.specs.Text.{wrote};
ghost use Rattle.listing.specs.Whole.{ListingShown, ListingLength, RefusalShown, OneListing, OneRefusal};
ghost use Rattle.protocol.specs.Slots.{lasting_viewlink};
ghost use Rattle.protocol.specs.Listing.{decimal, refused_line, counts_line, link_text, place_text, view_line, lines_to, listing_of};

use arrayvec::ArrayVec;
use lending::Bytes;
use lending::text::{append, append_number};
use protocol::{State, View};

/// The bytes of a listing, of which there are 990 at most, or of a refusal.
pub type Text = Bytes<1024>;

/// A text in the making.
type Draft = ArrayVec<u8, 1024>;

/// A number and the space behind it.
#[tactic(auto, unfolding(lending::specs::Text::wrote), using(lending::proofs::Appending::wrote_append))]
fn column(text: &mut Draft, n: u16)
    ensures { text.new.items ≡ wrote 1024 text.old.items (decimal n ++ (32 ∷ [])) }
{
    append_number(text, n);
    append(text, b" ");
}

/// Stores, actors, interactions, steps, steps taken.
#[tactic(auto, unfolding(lending::specs::Text::wrote, protocol::specs::Listing::counts_line), using(lending::proofs::Appending::wrote_append))]
fn counts(text: &mut Draft, m: &State, steps: u16, taken: u16)
    ensures { text.new.items ≡ wrote 1024 text.old.items (counts_line m.now.stores m.now.actors m.now.made steps taken) }
{
    column(text, u16::from(m.stores));
    column(text, u16::from(m.actors));
    column(text, u16::from(m.made));
    column(text, steps);
    append_number(text, taken);
    append(text, b"\n");
}

/// A viewlink, or `-` if none: 0 for none, and p + 1 for store p.
#[tactic(auto, unfolding(protocol::specs::Listing::link_text), using(unbroken::proofs::Tests::tests))]
fn link(text: &mut Draft, held: u8)
    ensures { text.new.items ≡ wrote 1024 text.old.items (link_text held) }
{
    if held == 0 {
        append(text, b"-");
    } else {
        append_number(text, u16::from(held - 1));
    }
}

/// The viewlink that a store's checkpointed state holds for a view; a store that isn't there holds nothing.
fn kept(m: &State, store: u8, v: usize) -> u8
    requires { v < 32 }
    ensures { result ≡ lasting_viewlink m.now store v }
{
    match m.shelves.get(usize::from(store)) {
        Some(shelf) => shelf.keptlinks[v],
        None => 0,
    }
}

/// A view's current store, and the viewlink that the store holds; in phase 0 both are `-`.
#[tactic(auto, unfolding(lending::specs::Text::wrote, protocol::specs::Listing::place_text), using(lending::proofs::Appending::wrote_append, unbroken::proofs::Tests::tests))]
fn place(text: &mut Draft, w: &View, held: u8)
    ensures { text.new.items ≡ wrote 1024 text.old.items (place_text w.now.phase w.now.store held) }
{
    if w.phase == 0 {
        append(text, b"- -\n");
    } else {
        column(text, u16::from(w.store));
        link(text, held);
        append(text, b"\n");
    }
}

/// The line of a view that is made, nothing for another: key, role, phase, current store, viewlink.
#[tactic(auto, unfolding(lending::specs::Text::wrote, protocol::specs::Listing::view_line, protocol::specs::Listing::line_of), using(lending::proofs::Appending::wrote_append, unbroken::proofs::Tests::tests))]
fn line(text: &mut Draft, m: &State, v: u8)
    requires { v < 32 }
    ensures { text.new.items ≡ wrote 1024 text.old.items (view_line m.now v) }
{
    if u16::from(m.made) * 2 <= u16::from(v) {
        return;
    }
    let w = &m.views[usize::from(v)];
    column(text, u16::from(v / 2));
    column(text, u16::from(v % 2));
    column(text, u16::from(w.phase));
    place(text, w, kept(m, w.store, usize::from(v)));
}

/// `refused N`, a line of its own, for a number that needn't be a `Refusal`'s.
#[tactic(auto, using(crate::proofs::Lines::refused_parts))]
pub fn refused(number: u8) -> Text
    ensures { result.items ≡ refused_line number }
{
    let mut text = Draft::new();
    append(&mut text, b"refused ");
    append_number(&mut text, u16::from(number));
    append(&mut text, b"\n");
    Text::from(&text)
}

/// The listing of a machine, broken or not, after a run of so many steps, of which so many were taken.
#[tactic(auto, using(crate::proofs::Lines::lines_all, crate::proofs::Lines::lines_more, crate::proofs::Lines::lines_none))]
pub fn listing(m: &State, steps: u16, taken: u16) -> Text
    ensures { result.items ≡ listing_of m.now steps taken }
{
    let mut text = Draft::new();
    counts(&mut text, m, steps, taken);
    for v in 0..32 {
        line(&mut text, m, v);
    }
    Text::from(&text)
}

/// The laws of the listing: each fits its text, and what is written is the listing.
#[tactic(auto, using(crate::proofs::Whole::listing_shown, crate::proofs::Whole::listing_length, crate::proofs::Whole::refusal_shown, crate::proofs::Whole::one_listing, crate::proofs::Whole::one_refusal))]
pub fn laws()
    ensures shown { ListingShown }
    ensures length { ListingLength }
    ensures refusal { RefusalShown }
    ensures one { OneListing }
    ensures one_refusal { OneRefusal }
{}
