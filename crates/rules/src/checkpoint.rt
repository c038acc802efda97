// Step 17, checkpoint: store.
ghost use Rattle.std.specs.Prelude.{◌≡◌};
ghost use Rattle.protocol.specs.Refusal.{told};
ghost use Rattle.protocol.specs.Step.{rule_of};
ghost use Rattle.protocol.specs.Stores.{saved};
ghost use Rattle.protocol.specs.declared.Step.TheVariants.{Checkpoint};
ghost use Rattle.unbroken.specs.Bounds.{Bounds};

use crate::guards::store_in;
use crate::places::{send_owed, sweep};
use protocol::refusal::Refusal;
use protocol::{State, Store};

/// The working state becomes the checkpointed one, and nothing is owed any more.
fn save(s: &mut Store)
    ensures { s.new ≡ saved s.old }
{
    s.kept = s.held;
    s.keptlinks = s.viewlinks;
    s.acksowed = 0;
    s.uacksowed = 0;
}

/// Up. One copy goes off for each owed note.
#[tactic(auto, unfolding(protocol::specs::Step::rule_of, protocol::specs::Checkpoint::checkpoint_no, protocol::specs::Checkpoint::checkpointed))]
pub(crate) fn checkpoint(m: &mut State, store: u8) -> Result<(), Refusal>
    requires { Bounds m.old }
    ensures { told result m.new ≡ rule_of m.old (Checkpoint store) }
{
    let p = store_in(m, store)?;
    if !m.shelves[p].up {
        return Err(Refusal::StoreDown);
    }
    send_owed(&mut m.acks, p, m.shelves[p].acksowed);
    send_owed(&mut m.uacks, p, m.shelves[p].uacksowed);
    save(&mut m.shelves[p]);
    sweep(m, p);
    Ok(())
}
