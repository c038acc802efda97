// What a step asks first: whether its numbers are in the machine, and whether the head of a queue is ready.
ghost use Rattle.std.specs.Prelude.{◌≡◌, ◌<◌, ◌≤◌, ◌||◌, true, not, IfOk, IfErr};
ghost use Rattle.protocol.specs.Refusal.{number};
ghost use Rattle.protocol.specs.Rule.{more, refused, taken, outside, head, head_in};
ghost use Rattle.protocol.specs.Slots.{number as number_of};
ghost use Rattle.unbroken.specs.Bounds.{Bounds};

use protocol::State;
use protocol::refusal::Refusal;

/// One copy more; a sixteenth is lost.
pub(crate) fn one_more(n: u8) -> u8
    ensures { result ≡ more n }
{
    if n < 15 { n + 1 } else { n }
}

/// The head of an actor's queue, which has to be in this phase.
pub(crate) fn head_in_phase(m: &State, actor: u8, phase: u8) -> Result<usize, Refusal>
    requires { Bounds m.now }
    ensures ok { IfOk result (λ v. (v ≡ head m.now actor) × (head_in phase m.now actor ≡ true) × (actor < m.now.actors)) }
    ensures err { IfErr result (λ e. number e ≡ refused 2 (outside actor m.now.actors) (refused 7 (not (head_in phase m.now actor)) taken)) }
{
    if m.actors <= actor {
        return Err(Refusal::NotInMachine);
    }
    let queue = &m.queues[actor as usize];
    let v = queue.views[0] as usize;
    if queue.len == 0 || m.views[v].phase != phase {
        return Err(Refusal::NotReady);
    }
    Ok(v)
}

/// A store's number.
pub(crate) fn store_in(m: &State, store: u8) -> Result<usize, Refusal>
    ensures ok { IfOk result (λ p. (p ≡ store) × (store < m.now.stores)) }
    ensures err { IfErr result (λ e. (number e ≡ 2) × (m.now.stores ≤ store)) }
{
    if m.stores <= store {
        return Err(Refusal::NotInMachine);
    }
    Ok(store as usize)
}

/// A view's number.
pub(crate) fn view_in(m: &State, key: u8, role: u8) -> Result<usize, Refusal>
    ensures ok { IfOk result (λ v. (v ≡ number_of key role) × (key < m.now.made) × (role < 2)) }
    ensures err { IfErr result (λ e. (number e ≡ 2) × ((outside key m.now.made || outside role 2) ≡ true)) }
{
    if m.made <= key || 2 <= role {
        return Err(Refusal::NotInMachine);
    }
    Ok(key as usize * 2 + role as usize)
}
