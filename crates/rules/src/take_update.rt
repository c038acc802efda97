// Step 11, store takes update: store, key, role.
ghost use Rattle.std.specs.Prelude.{◌≡◌, ◌<◌};
ghost use Rattle.protocol.specs.Refusal.{told};
ghost use Rattle.protocol.specs.Step.{rule_of};
ghost use Rattle.protocol.specs.TakeUpdate.{updated_in};
ghost use Rattle.protocol.specs.declared.Step.TheVariants.{TakeUpdate};
ghost use Rattle.unbroken.specs.Bounds.{Bounds};

use crate::guards::{store_in, view_in};
use protocol::refusal::Refusal;
use protocol::{State, Store, sets};

/// The viewlink of the opposite view becomes the own store, always, in the working state, and a uack is owed.
fn update(s: &mut Store, v: usize, opposite: usize, own: u8)
    requires { (v < 32) × (opposite < 32) × (own < 8) }
    ensures { s.new ≡ updated_in s.old v opposite own }
{
    s.viewlinks[opposite] = own + 1;
    s.uacksowed = sets::with(s.uacksowed, v);
}

/// Store up, a copy in flight, which goes.
#[tactic(auto, unfolding(protocol::specs::Step::rule_of, protocol::specs::TakeUpdate::take_update_no, protocol::specs::TakeUpdate::update_taken))]
pub(crate) fn take_update(m: &mut State, store: u8, key: u8, role: u8) -> Result<(), Refusal>
    requires { Bounds m.old }
    ensures { told result m.new ≡ rule_of m.old (TakeUpdate store key role) }
{
    let p = store_in(m, store)?;
    let v = view_in(m, key, role)?;
    let opposite = key as usize * 2 + (1 - role as usize);
    let at = p * 32 + v;
    if !m.shelves[p].up {
        return Err(Refusal::StoreDown);
    }
    if m.updates[at] == 0 {
        return Err(Refusal::NotReady);
    }
    m.updates[at] -= 1;
    update(&mut m.shelves[p], v, opposite, m.entries[v].own);
    Ok(())
}
