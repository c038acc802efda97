// A message on the store where it stands: where its activity is, which row it is for, and what is answered.
ghost use Rattle.std.specs.Prelude.{◌≡◌, false, true, cond, IfErr, IfOk};
ghost use Rattle.std.specs.List.{position};
ghost use Rattle.activities.specs.Activity.{neither, same};
ghost use Rattle.activities.specs.Outcome.{told};
ghost use Rattle.activities.specs.Receive.{ack_of, exchange_taken, receive, side_of};
ghost use Rattle.activities.specs.Side.{full};
ghost use Rattle.activities.specs.Store.{fresh as fresh_of, place_of, exchange_of};
ghost use Rattle.activities.specs.declared.refusal.StoreRefusal.TheVariants.{NoRoom, UnknownSender};

use super::rows;
use activities::{
    Ack, Activity, Exchange, Finishing, Message, Receipt, Said, Side, Store, StoreRefusal,
};

/// An activity with nothing in either row.
pub(crate) fn fresh(activity: Activity) -> Exchange
    ensures { result ≡ fresh_of activity }
{
    Exchange {
        activity,
        client: Side::default(),
        service: Side::default(),
    }
}

/// Where an activity stands.
#[tactic(auto, unfolding(activities::specs::Activity::same))]
fn find(held: &[Exchange], a: Activity) -> Option<usize>
    ensures { result ≡ position (λ e. same e.activity a) held.now }
{
    held.iter().position(|e| e.activity == a)
}

/// Where an activity stands, and its two rows: the place behind the last, and new rows, where it isn't held.
#[tactic(auto, using(crate::proofs::Search::found_place, crate::proofs::Search::found_rows, crate::proofs::Search::new_place, crate::proofs::Search::new_rows))]
fn look(s: &Store, a: Activity) -> (usize, Exchange)
    ensures place { result.0 ≡ place_of s.now a }
    ensures rows { result.1 ≡ exchange_of s.now a }
{
    let held = &s.exchanges[..s.used.min(16) as usize];
    match find(held, a) {
        Some(at) => (at, held[at]),
        None => (held.len(), fresh(a)),
    }
}

/// The acknowledgement of a kind.
fn ack(said: &Said) -> Option<Ack>
    ensures { result ≡ ack_of said.now }
{
    match said {
        Said::Negotiation { .. } => Some(Ack::NegotiationAck),
        Said::Invocation { .. } => Some(Ack::InvocationAck),
        Said::Result { .. } => Some(Ack::ResultAck),
        Said::Finished { .. } => None,
        Said::Additional { .. } => Some(Ack::AdditionalAck),
    }
}

/// Both rows with the message, where its sender has one of them and there is room in it.
#[tactic(auto, unfolding(activities::specs::Receive::exchange_taken))]
fn taken(before: &Exchange, m: &Message) -> Result<Exchange, StoreRefusal>
    ensures ok { IfOk result (λ e. (neither m.now ≡ false) × (full (side_of before.now m.now) m.now.said ≡ false) × (e ≡ exchange_taken before.now m.now)) }
    ensures err { IfErr result (λ r. cond (neither m.now) (r ≡ UnknownSender) ((r ≡ NoRoom) × (full (side_of before.now m.now) m.now.said ≡ true))) }
{
    let mut after = *before;
    if m.sender == m.activity.client {
        rows::put(&mut after.client, &m.said)?;
    } else if m.sender == m.activity.service {
        rows::put(&mut after.service, &m.said)?;
    } else {
        return Err(StoreRefusal::UnknownSender);
    }
    Ok(after)
}

/// A message is put where it belongs, or refused and nothing changed.
#[tactic(auto, unfolding(activities::specs::Receive::receive, activities::specs::Receive::no_room, activities::specs::Receive::completes, activities::specs::Store::written))]
pub(crate) fn take(s: &mut Store, m: &Message) -> Result<Receipt, StoreRefusal>
    ensures { told s.new result ≡ receive s.old m.now }
{
    let (at, before) = look(s, m.activity);
    let after = taken(&before, m)?;
    if 16 <= at {
        return Err(StoreRefusal::NoRoom);
    }
    s.exchanges[at] = after;
    s.used = s.used.max(at as u8 + 1);
    let now = rows::complete(&after) && !rows::complete(&before);
    Ok(Receipt {
        ack: ack(&m.said),
        finished: Finishing {
            client: now,
            service: now,
        },
    })
}
