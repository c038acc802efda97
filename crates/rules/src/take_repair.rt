// Step 9, coordinator takes repair: key, role.
ghost use Rattle.std.specs.Prelude.{◌≡◌};
ghost use Rattle.protocol.specs.Refusal.{told};
ghost use Rattle.protocol.specs.Step.{rule_of};
ghost use Rattle.protocol.specs.TakeRepair.{redirected_entry, repaired_entry};
ghost use Rattle.protocol.specs.declared.Step.TheVariants.{TakeRepair};
ghost use Rattle.unbroken.specs.Bounds.{Bounds};

use crate::guards::view_in;
use protocol::refusal::Refusal;
use protocol::{Entry, Repair, State, Status};

/// The entry of a repair: its destination is the other's own store, if the other role has an entry.
fn repaired_entry(sent: Repair, other: Entry) -> Entry
    ensures { result ≡ repaired_entry sent other }
{
    let destination = if matches!(other.status, Status::Nothing) {
        sent.destination
    } else {
        other.own
    };
    Entry {
        status: Status::ToSend,
        destination,
        own: sent.own,
    }
}

/// The other role's entry, if there is one, is sent anew to the repair's own store.
fn redirected_entry(sent: Repair, other: Entry) -> Entry
    ensures { result ≡ redirected_entry sent other }
{
    match other.status {
        Status::Nothing => other,
        _ => Entry {
            status: Status::ToSend,
            destination: sent.own,
            own: other.own,
        },
    }
}

/// One in flight. Both entries are to-send.
#[tactic(auto, unfolding(protocol::specs::Step::rule_of, protocol::specs::TakeRepair::take_repair_no, protocol::specs::TakeRepair::repair_taken))]
pub(crate) fn take_repair(m: &mut State, key: u8, role: u8) -> Result<(), Refusal>
    requires { Bounds m.old }
    ensures { told result m.new ≡ rule_of m.old (TakeRepair key role) }
{
    let v = view_in(m, key, role)?;
    let opposite = key as usize * 2 + (1 - role as usize);
    let sent = m.repairs[v];
    if !sent.flying {
        return Err(Refusal::NotReady);
    }
    let other = m.entries[opposite];
    m.entries[v] = repaired_entry(sent, other);
    m.entries[opposite] = redirected_entry(sent, other);
    m.repairs[v] = Repair {
        flying: false,
        destination: 0,
        own: 0,
    };
    Ok(())
}
