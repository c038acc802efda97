// The views that are not broken: their cause links, what each phase and role sets, and that those which wait stand in a queue.
ghost use Rattle.std.specs.Prelude.{◌≡◌, ◌-◌, ◌&&◌, ◌<◌, get_or, length};
ghost use Rattle.broken.specs.Marks.{view_met, waits_met};
ghost use Rattle.protocol.specs.Broken.{is_unset, link_fine, links_fine, made_view, phase_fine, role_fine};
ghost use Rattle.protocol.specs.Words.{all};

use crate::held::blank_links;
use crate::queues::waits;
use protocol::sets::is_in;
use protocol::{State, View};

/// A cause is below its key, and its link names a store; a link without one is blank.
fn link_fine(stores: u8, key: usize, causes: u16, j: usize, link: u8) -> bool
    requires { j < 16 }
    ensures { result ≡ link_fine stores key causes j link }
{
    if is_in(u32::from(causes), j) {
        j < key && link < stores
    } else {
        link == 0
    }
}

#[tactic(auto, unfolding(protocol::specs::Words::all_from))]
fn each_link_fine(stores: u8, key: usize, w: &View) -> bool
    ensures each { result ≡ all (link_fine stores key w.now.causes) w.now.links }
    ensures long { length w.now.links ≡ 16 }
{
    w.links
        .iter()
        .enumerate()
        .all(|(j, &link)| link_fine(stores, key, w.causes, j, link))
}

/// Most views have no cause: then the sixteen are compared at once.
fn links_fine(stores: u8, key: usize, w: &View) -> bool
    ensures each { result ≡ all (link_fine stores key w.now.causes) w.now.links }
    ensures long { length w.now.links ≡ 16 }
{
    if w.causes == 0 {
        return blank_links(&w.links);
    }
    each_link_fine(stores, key, w)
}

/// Nothing but the actor is set.
fn is_unset(w: &View) -> bool
    ensures { result ≡ is_unset w.now }
{
    w.store == 0 && w.viewlink == 0 && !w.changed && w.tries == 0 && w.causes == 0 && w.word == 0
}

/// In phase 0 nothing is set; else the current store and the viewlink name stores, which is tried again three times at most.
fn phase_fine(stores: u8, w: &View) -> bool
    ensures { result ≡ phase_fine stores w.now }
{
    if w.phase == 0 {
        is_unset(w)
    } else {
        w.store < stores && w.viewlink < stores && w.tries <= 3
    }
}

#[tactic(auto, unfolding(protocol::specs::Broken::links_fine))]
fn record_fine(stores: u8, key: usize, w: &View) -> bool
    ensures { result ≡ (links_fine stores key w.now.causes w.now.links && phase_fine stores w.now) }
{
    links_fine(stores, key, w) && phase_fine(stores, w)
}

/// Phase 0 is for receivers only. A receiver has no causes, and isn't the sender.
fn role_fine(sender: u8, v: usize, w: &View) -> bool
    ensures { result ≡ role_fine sender v w.now }
{
    if v % 2 == 0 {
        1 <= w.phase
    } else {
        w.causes == 0 && w.actor != sender
    }
}

/// A view that isn't made is blank.
fn made_view(m: &State, sender: u8, v: usize, w: &View) -> bool
    ensures { result ≡ made_view m.now.actors m.now.made sender v w.now }
{
    if v < m.made as usize * 2 {
        w.actor < m.actors && w.phase <= 5 && role_fine(sender, v, w)
    } else {
        w.actor == 0 && w.phase == 0
    }
}

/// A view in phases 1 to 4 is met in a queue.
fn waits_met(marks: u32, v: usize, w: &View) -> bool
    requires { v < 32 }
    ensures { result ≡ waits_met marks v w.now }
{
    !waits(w.phase) || is_in(marks, v)
}

#[tactic(auto, unfolding(crate::specs::Marks::view_met))]
fn view_met(m: &State, marks: u32, v: usize, w: &View) -> bool
    requires { v < 32 }
    ensures { result ≡ view_met m.now.stores m.now.actors m.now.made m.now.views marks v w.now }
{
    // The number before is a receiver's sender; none is before 0.
    let sender = m.views[v.saturating_sub(1)].actor;
    record_fine(m.stores, v / 2, w) && made_view(m, sender, v, w) && waits_met(marks, v, w)
}

/// Each view by itself; those that wait are met in the queues.
#[tactic(auto, unfolding(protocol::specs::Words::all_from))]
pub(crate) fn views_met(m: &State, marks: u32) -> bool
    ensures each { result ≡ all (view_met m.now.stores m.now.actors m.now.made m.now.views marks) m.now.views }
    ensures long { length m.now.views ≡ 32 }
{
    m.views
        .iter()
        .enumerate()
        .all(|(v, w)| view_met(m, marks, v, w))
}
