// Step 14, lose: what (0 record, 1 ack, 2 update, 3 uack), store, key, role.
ghost use Rattle.std.specs.Prelude.{◌≡◌, ◌<◌, ◌≢◌, IfOk, IfErr};
ghost use Rattle.protocol.specs.Lose.{copies, lose_no, with_copies};
ghost use Rattle.protocol.specs.Refusal.{number, told};
ghost use Rattle.protocol.specs.Slots.{number as number_of, place};
ghost use Rattle.protocol.specs.Step.{rule_of};
ghost use Rattle.protocol.specs.declared.Step.TheVariants.{Lose};
ghost use Rattle.unbroken.specs.Bounds.{Bounds};

use crate::guards::{store_in, view_in};
use protocol::State;
use protocol::refusal::Refusal;

/// Copies in flight at a store of what a view sends.
// `what` stays a number: a step with any byte there is answered, and one of 4 or more refused (`lose_no`).
pub(crate) fn copies(m: &State, what: u8, p: usize, v: usize) -> u8
    requires { (p < 8) × (v < 32) }
    ensures { result ≡ copies m.now what p v }
{
    let at = p * 32 + v;
    match what {
        0 => m.records[at],
        1 => m.acks[at],
        2 => m.updates[at],
        _ => m.uacks[at],
    }
}

pub(crate) fn set_copies(m: &mut State, what: u8, p: usize, v: usize, n: u8)
    requires { (p < 8) × (v < 32) }
    ensures { m.new ≡ with_copies m.old what p v n }
{
    let at = p * 32 + v;
    match what {
        0 => m.records[at] = n,
        1 => m.acks[at] = n,
        2 => m.updates[at] = n,
        _ => m.uacks[at] = n,
    }
}

/// The store and the view of a copy that is in flight.
#[tactic(auto, unfolding(protocol::specs::Lose::lose_no))]
pub(crate) fn copy_in_flight(
    m: &State,
    what: u8,
    store: u8,
    key: u8,
    role: u8,
) -> Result<(usize, usize), Refusal>
    requires { Bounds m.now }
    ensures ok { IfOk result (λ q. (q.0 ≡ store) × (q.0 < 8) × (q.1 ≡ number_of key role) × (q.1 < 32) × (lose_no m.now what store key role ≡ 0) × (copies m.now what q.0 q.1 ≢ 0)) }
    ensures err { IfErr result (λ e. number e ≡ lose_no m.now what store key role) }
{
    if 4 <= what {
        return Err(Refusal::NotInMachine);
    }
    let p = store_in(m, store)?;
    let v = view_in(m, key, role)?;
    if copies(m, what, p, v) == 0 {
        return Err(Refusal::NotReady);
    }
    Ok((p, v))
}

/// One copy goes.
#[tactic(auto, unfolding(protocol::specs::Step::rule_of, protocol::specs::Lose::lost))]
pub(crate) fn lose(m: &mut State, what: u8, store: u8, key: u8, role: u8) -> Result<(), Refusal>
    requires { Bounds m.old }
    ensures { told result m.new ≡ rule_of m.old (Lose what store key role) }
{
    let (p, v) = copy_in_flight(m, what, store, key, role)?;
    let n = copies(m, what, p, v);
    set_copies(m, what, p, v, n - 1);
    Ok(())
}
