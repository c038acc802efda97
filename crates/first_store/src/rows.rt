// An activity's row in one table, and both rows.
ghost use Rattle.std.specs.Prelude.{◌≡◌, ◌<◌, ◌≤◌, Bool, false, true, cond, IfErr, OnOk};
ghost use Rattle.activities.specs.Complete.{complete_side, complete as complete_of};
ghost use Rattle.activities.specs.Side.{added, full, side_taken};
ghost use Rattle.activities.specs.declared.refusal.StoreRefusal.TheVariants.{NoRoom};

use activities::{Added, Announced, Exchange, Negotiated, Said, Side, StoreRefusal, Transmitted};

/// What a table has of a kind: nothing, or the message that was taken first.
trait Kind: Copy {
    ghost held: { Self → Bool };

    fn is_held(&self) -> bool
        ensures { result ≡ held self.now };
}

impl Kind for Negotiated {
    ghost held = { λ x. x.held };

    fn is_held(&self) -> bool {
        self.held
    }
}

impl Kind for Transmitted {
    ghost held = { λ x. x.held };

    fn is_held(&self) -> bool {
        self.held
    }
}

impl Kind for Announced {
    ghost held = { λ x. x.held };

    fn is_held(&self) -> bool {
        self.held
    }
}

/// What is there stays: a second message of a kind changes nothing.
fn keep_first<T: Kind>(there: &mut T, said: T)
    ensures { there.new ≡ cond (T.held there.old) there.old said }
{
    if !there.is_held() {
        *there = said;
    }
}

/// An additional message goes behind the others, where there is room.
fn push(l: &mut Added, extra: u32) -> Result<(), StoreRefusal>
    ensures ok { OnOk result ((l.old.count < 8) × (l.new ≡ added l.old extra)) }
    ensures err { IfErr result (λ r. (r ≡ NoRoom) × (8 ≤ l.old.count) × (l.new ≡ l.old)) }
{
    let n = l.count as usize;
    if 8 <= n {
        return Err(StoreRefusal::NoRoom);
    }
    l.extras[n] = extra;
    l.count += 1;
    Ok(())
}

/// The row with what is said, where there is room for it.
#[tactic(auto, unfolding(activities::specs::Side::side_taken))]
pub(crate) fn put(x: &mut Side, said: &Said) -> Result<(), StoreRefusal>
    ensures ok { OnOk result ((full x.old said.now ≡ false) × (x.new ≡ side_taken x.old said.now)) }
    ensures err { IfErr result (λ r. (r ≡ NoRoom) × (full x.old said.now ≡ true)) }
{
    match *said {
        Said::Negotiation {
            list,
            accepted,
            extra,
        } => {
            let said = Negotiated {
                held: true,
                list,
                accepted,
                extra,
            };
            keep_first(&mut x.negotiation, said);
        }
        Said::Invocation { extra, word } => {
            let said = Transmitted {
                held: true,
                extra,
                word,
            };
            keep_first(&mut x.invocation, said);
        }
        Said::Result { extra, word } => {
            let said = Transmitted {
                held: true,
                extra,
                word,
            };
            keep_first(&mut x.result, said);
        }
        Said::Finished { count } => {
            let said = Announced { held: true, count };
            keep_first(&mut x.finished, said);
        }
        Said::Additional { extra } => return push(&mut x.additional, extra),
    }
    Ok(())
}

/// Whether a side has sent the first four, and as many additional ones as it announced.
#[tactic(auto, unfolding(activities::specs::Complete::complete_side))]
fn complete_side(x: &Side) -> bool
    ensures { result ≡ complete_side x.now }
{
    x.negotiation.held
        && x.invocation.held
        && x.result.held
        && x.finished.held
        && x.finished.count == 4 + u32::from(x.additional.count.min(8))
}

#[tactic(auto, unfolding(activities::specs::Complete::complete))]
pub(crate) fn complete(e: &Exchange) -> bool
    ensures { result ≡ complete_of e.now }
{
    complete_side(&e.client) && complete_side(&e.service)
}
