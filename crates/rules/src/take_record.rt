// Step 6, store takes record: store, key, role.
ghost use Rattle.std.specs.Prelude.{◌≡◌, ◌<◌, Bool};
ghost use Rattle.protocol.specs.Refusal.{told};
ghost use Rattle.protocol.specs.Step.{rule_of};
ghost use Rattle.protocol.specs.TakeRecord.{taken_in, written_contents, written_links};
ghost use Rattle.protocol.specs.declared.Step.TheVariants.{TakeRecord};
ghost use Rattle.unbroken.specs.Bounds.{Bounds};

use crate::guards::{store_in, view_in};
use protocol::refusal::Refusal;
use protocol::{Contents, Links, State, Store, View, sets};

/// Contents are written only if the working state had none.
fn written_contents(held: bool, there: Contents, w: &View) -> Contents
    ensures { result ≡ written_contents held there w.now }
{
    if held {
        there
    } else {
        Contents {
            asserter: w.actor,
            causes: w.causes,
            word: w.word,
        }
    }
}

/// So are the cause links, which only a sender has.
fn written_links(role: u8, held: bool, w: &View, there: Links) -> Links
    ensures { result ≡ written_links role held w.now there }
{
    let to = w.links;
    if held || role != 0 {
        there
    } else {
        Links { to }
    }
}

/// The store with the view's contents and, where it had none, its viewlink in the working state, and an ack owed.
fn take_in(s: &mut Store, v: usize, w: &View)
    requires { (v < 32) × (w.now.viewlink < 8) }
    ensures { s.new ≡ taken_in s.old v w.now }
{
    s.held = sets::with(s.held, v);
    s.acksowed = sets::with(s.acksowed, v);
    if s.viewlinks[v] == 0 {
        s.viewlinks[v] = w.viewlink + 1;
    }
}

/// Store up, a copy in flight, which goes.
#[tactic(auto, unfolding(protocol::specs::Step::rule_of, protocol::specs::TakeRecord::take_record_no, protocol::specs::TakeRecord::record_taken))]
pub(crate) fn take_record(m: &mut State, store: u8, key: u8, role: u8) -> Result<(), Refusal>
    requires { Bounds m.old }
    ensures { told result m.new ≡ rule_of m.old (TakeRecord store key role) }
{
    let p = store_in(m, store)?;
    let v = view_in(m, key, role)?;
    let at = p * 32 + v;
    if !m.shelves[p].up {
        return Err(Refusal::StoreDown);
    }
    if m.records[at] == 0 {
        return Err(Refusal::NotReady);
    }
    let w = m.views[v];
    let held = sets::is_in(m.shelves[p].held, v);
    m.records[at] -= 1;
    m.contents[at] = written_contents(held, m.contents[at], &w);
    let sender = p * 16 + key as usize;
    m.links[sender] = written_links(role, held, &w, m.links[sender]);
    take_in(&mut m.shelves[p], v, &w);
    Ok(())
}
