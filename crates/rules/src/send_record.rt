// Step 4, send record: actor.
ghost use Rattle.std.specs.Prelude.{◌≡◌};
ghost use Rattle.protocol.specs.Refusal.{told};
ghost use Rattle.protocol.specs.Step.{rule_of};
ghost use Rattle.protocol.specs.declared.Step.TheVariants.{SendRecord};
ghost use Rattle.unbroken.specs.Bounds.{Bounds};

use crate::guards::{head_in_phase, one_more};
use protocol::refusal::Refusal;
use protocol::{State, phase};

/// Head in phase 2. One record copy to its store. Phase 3.
#[tactic(auto, unfolding(protocol::specs::Step::rule_of, protocol::specs::SendRecord::send_record_no, protocol::specs::SendRecord::record_sent))]
pub(crate) fn send_record(m: &mut State, actor: u8) -> Result<(), Refusal>
    requires { Bounds m.old }
    ensures { told result m.new ≡ rule_of m.old (SendRecord actor) }
{
    let v = head_in_phase(m, actor, phase::READY)?;
    let at = m.views[v].store as usize * 32 + v;
    m.views[v].phase = phase::SENT;
    m.records[at] = one_more(m.records[at]);
    Ok(())
}
