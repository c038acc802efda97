// Step 13, coordinator timeout: key, role.
ghost use Rattle.std.specs.Prelude.{◌≡◌};
ghost use Rattle.protocol.specs.Refusal.{told};
ghost use Rattle.protocol.specs.Step.{rule_of};
ghost use Rattle.protocol.specs.declared.Step.TheVariants.{Expire};
ghost use Rattle.unbroken.specs.Bounds.{Bounds};

use crate::guards::view_in;
use protocol::refusal::Refusal;
use protocol::{State, Status};

/// Waiting becomes to-send.
#[tactic(auto, unfolding(protocol::specs::Step::rule_of, protocol::specs::Expire::expire_no, protocol::specs::Expire::expired))]
pub(crate) fn expire(m: &mut State, key: u8, role: u8) -> Result<(), Refusal>
    requires { Bounds m.old }
    ensures { told result m.new ≡ rule_of m.old (Expire key role) }
{
    let v = view_in(m, key, role)?;
    let e = &mut m.entries[v];
    if e.status != Status::Waiting {
        return Err(Refusal::NotReady);
    }
    e.status = Status::ToSend;
    Ok(())
}
