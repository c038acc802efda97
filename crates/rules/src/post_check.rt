// Step 8, post-check: actor.
ghost use Rattle.std.specs.Prelude.{◌≡◌, ◌<◌};
ghost use Rattle.protocol.specs.PostCheck.{asked_repair, left};
ghost use Rattle.protocol.specs.Refusal.{told};
ghost use Rattle.protocol.specs.Step.{rule_of};
ghost use Rattle.protocol.specs.declared.Step.TheVariants.{PostCheck};
ghost use Rattle.unbroken.specs.Bounds.{Bounds};

use crate::guards::head_in_phase;
use protocol::refusal::Refusal;
use protocol::{Queue, Repair, State, View, phase};

/// If changed, a repair goes off.
fn asked_repair(there: Repair, w: &View) -> Repair
    ensures { result ≡ asked_repair there w.now }
{
    if w.changed {
        Repair {
            flying: true,
            destination: w.viewlink,
            own: w.store,
        }
    } else {
        there
    }
}

/// The head leaves the queue.
fn leave(queue: &mut Queue)
    requires { 0 < queue.old.len }
    ensures { queue.new ≡ left queue.old }
{
    queue.len -= 1;
    queue.views[0] = 0;
    queue.views.rotate_left(1);
}

/// Head in phase 4. If changed, a repair goes off. The head leaves the queue, phase 5.
#[tactic(auto, unfolding(protocol::specs::Step::rule_of, protocol::specs::PostCheck::post_check_no, protocol::specs::PostCheck::post_checked))]
pub(crate) fn post_check(m: &mut State, actor: u8) -> Result<(), Refusal>
    requires { Bounds m.old }
    ensures { told result m.new ≡ rule_of m.old (PostCheck actor) }
{
    let v = head_in_phase(m, actor, phase::ACKNOWLEDGED)?;
    m.views[v].phase = phase::SETTLED;
    m.repairs[v] = asked_repair(m.repairs[v], &m.views[v]);
    leave(&mut m.queues[actor as usize]);
    Ok(())
}
