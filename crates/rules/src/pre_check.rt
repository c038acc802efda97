// Step 3, pre-check: actor.
ghost use Rattle.std.specs.Prelude.{◌≡◌, ◌<◌};
ghost use Rattle.protocol.specs.PreCheck.{checked_link, checked_view};
ghost use Rattle.protocol.specs.Refusal.{told};
ghost use Rattle.protocol.specs.Step.{rule_of};
ghost use Rattle.protocol.specs.Words.{table};
ghost use Rattle.protocol.specs.declared.Step.TheVariants.{PreCheck};
ghost use Rattle.unbroken.specs.Bounds.{Bounds};

use crate::guards::head_in_phase;
use protocol::refusal::Refusal;
use protocol::sets::is_in;
use protocol::{State, View, phase};

/// A cause link becomes the store recorded for that receipt if its changed flag is set.
fn checked_link(m: &State, w: &View, j: usize) -> u8
    requires { j < 16 }
    ensures { result ≡ checked_link m.now w.now j }
{
    let receipt = &m.views[j * 2 + 1];
    if is_in(u32::from(w.causes), j) && receipt.changed {
        receipt.store
    } else {
        w.links[j]
    }
}

fn checked_links(m: &State, w: &View) -> [u8; 16]
    ensures { result ≡ table (checked_link m.now w.now) 16 }
{
    let mut links = [0; 16];
    for j in 0..16 {
        links[j] = checked_link(m, w, j);
    }
    links
}

/// Each cause link is brought up to its receipt. Phase 2.
fn checked_view(m: &State, w: View) -> View
    ensures { result ≡ checked_view m.now w }
{
    let links = checked_links(m, &w);
    View {
        phase: phase::READY,
        links,
        ..w
    }
}

/// Head in phase 1.
#[tactic(auto, unfolding(protocol::specs::Step::rule_of, protocol::specs::PreCheck::pre_check_no, protocol::specs::PreCheck::pre_checked))]
pub(crate) fn pre_check(m: &mut State, actor: u8) -> Result<(), Refusal>
    requires { Bounds m.old }
    ensures { told result m.new ≡ rule_of m.old (PreCheck actor) }
{
    let v = head_in_phase(m, actor, phase::QUEUED)?;
    m.views[v] = checked_view(m, m.views[v]);
    Ok(())
}
