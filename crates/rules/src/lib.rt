//! The rules of the eighteen kinds of step, on the machine where it stands.
// `Bounds` stays a clause of each rule and guard, no type: a rule writes field by field, and a type would have its invariant proved
// at each of eighteen ends, where `step_keeps` of `keeps` says it once; whoever takes steps holds a `machine::sound::Sound`.
#![tactic(auto)]

ghost use Rattle.std.specs.Prelude.{◌≡◌};
ghost use Rattle.protocol.specs.Refusal.{told};
ghost use Rattle.protocol.specs.Step.{rule_of};
ghost use Rattle.unbroken.specs.Bounds.{Bounds};

mod checkpoint;
mod crash;
mod duplicate;
mod expire;
mod guards;
mod lose;
mod places;
mod post_check;
mod pre_check;
mod receive;
mod restart;
mod send;
mod send_record;
mod send_update;
mod take_ack;
mod take_record;
mod take_repair;
mod take_uack;
mod take_update;
mod timeout;

use protocol::refusal::Refusal;
use protocol::{State, Step};

/// One step. A refused one leaves the machine as it was.
// One `match`, as in `rule_of`: a step is one enum whose cases carry its numbers, and each arm is one call.
pub fn apply(m: &mut State, step: Step) -> Result<(), Refusal>
    requires { Bounds m.old }
    ensures { told result m.new ≡ rule_of m.old step }
{
    match step {
        Step::Send {
            from,
            to,
            own,
            word,
            causes,
        } => send::send(m, from, to, own, word, causes),
        Step::Receive { key } => receive::receive(m, key),
        Step::PreCheck { actor } => pre_check::pre_check(m, actor),
        Step::SendRecord { actor } => send_record::send_record(m, actor),
        Step::Timeout { actor, store } => timeout::time_out(m, actor, store),
        Step::TakeRecord { store, key, role } => take_record::take_record(m, store, key, role),
        Step::TakeAck { store, key, role } => take_ack::take_ack(m, store, key, role),
        Step::PostCheck { actor } => post_check::post_check(m, actor),
        Step::TakeRepair { key, role } => take_repair::take_repair(m, key, role),
        Step::SendUpdate { key, role } => send_update::send_update(m, key, role),
        Step::TakeUpdate { store, key, role } => take_update::take_update(m, store, key, role),
        Step::TakeUack { store, key, role } => take_uack::take_uack(m, store, key, role),
        Step::Expire { key, role } => expire::expire(m, key, role),
        Step::Lose {
            what,
            store,
            key,
            role,
        } => lose::lose(m, what, store, key, role),
        Step::Crash { store } => crash::crash(m, store),
        Step::Restart { store } => restart::restart(m, store),
        Step::Checkpoint { store } => checkpoint::checkpoint(m, store),
        Step::Duplicate {
            what,
            store,
            key,
            role,
        } => duplicate::duplicate(m, what, store, key, role),
    }
}
