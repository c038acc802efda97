// Step 1, send: from, to, own store, data, causes.
ghost use Rattle.std.specs.Prelude.{◌≡◌, ◌<◌};
ghost use Rattle.protocol.specs.Refusal.{told};
ghost use Rattle.protocol.specs.Send.{cause_known, causes_known, home_link, joined, sent_view};
ghost use Rattle.protocol.specs.Step.{rule_of};
ghost use Rattle.protocol.specs.Words.{table};
ghost use Rattle.protocol.specs.declared.Step.TheVariants.{Send};
ghost use Rattle.unbroken.specs.Bounds.{Bounds};

use protocol::refusal::Refusal;
use protocol::sets::is_in;
use protocol::{Message, Queue, State, View, phase};

/// Every cause link home of from.
fn home_links(causes: u16, home: u8) -> [u8; 16]
    ensures { result ≡ table (home_link causes home) 16 }
{
    let mut links = [0; 16];
    for j in 0..16 {
        links[j] = if is_in(u32::from(causes), j) { home } else { 0 };
    }
    links
}

/// Whether j, if it is a cause, is an interaction that the actor has received.
fn is_known(m: &State, actor: u8, causes: u16, j: usize) -> bool
    requires { j < 16 }
    ensures { result ≡ cause_known m.now actor causes j }
{
    if !is_in(u32::from(causes), j) {
        return true;
    }
    let receipt = &m.views[j * 2 + 1];
    j < m.made as usize && receipt.phase != phase::NOT_MADE && receipt.actor == actor
}

// A `for`: `(0..16).all(..)` proves as std's `list_all`; from there to `causes_known` the proof didn't close, here or in `send`.
#[tactic(auto, unfolding(protocol::specs::Send::causes_known))]
fn are_known(m: &State, actor: u8, causes: u16) -> bool
    ensures { result ≡ causes_known m.now actor causes }
{
    for j in 0..16 {
        if !is_known(m, actor, causes, j) {
            return false;
        }
    }
    true
}

/// A view's number at the end of a queue.
pub(crate) fn join(queue: &mut Queue, view: u8)
    requires { queue.old.len < 16 }
    ensures { queue.new ≡ joined queue.old view }
{
    queue.views[queue.len as usize] = view;
    queue.len += 1;
}

fn sent_view(m: &State, from: u8, to: u8, own: u8, word: u32, causes: u16) -> View
    requires { (from < 8) × (to < 8) }
    ensures { result ≡ sent_view m.now from to own word causes }
{
    let links = home_links(causes, m.homes[from as usize]);
    View {
        phase: phase::QUEUED,
        store: own,
        viewlink: m.homes[to as usize],
        causes,
        word,
        links,
        ..View::unset(from)
    }
}

/// Own is in from's list; each cause is an interaction that from has received. The message goes off, and the sender's record joins
/// the queue.
#[tactic(auto, unfolding(protocol::specs::Step::rule_of, protocol::specs::Send::send_no, protocol::specs::Send::sent))]
pub(crate) fn send(
    m: &mut State,
    from: u8,
    to: u8,
    own: u8,
    word: u32,
    causes: u16,
) -> Result<(), Refusal>
    requires { Bounds m.old }
    ensures { told result m.new ≡ rule_of m.old (Send from to own word causes) }
{
    if m.actors <= from || m.actors <= to || m.stores <= own {
        return Err(Refusal::NotInMachine);
    }
    if from == to {
        return Err(Refusal::SameEnds);
    }
    if 16 <= m.made {
        return Err(Refusal::NoKeyLeft);
    }
    if !is_in(u32::from(m.lists[from as usize]), own as usize) {
        return Err(Refusal::NotListed);
    }
    if !are_known(m, from, causes) {
        return Err(Refusal::UnknownCause);
    }
    let key = m.made as usize;
    let sender = sent_view(m, from, to, own, word, causes);
    m.views[key * 2] = sender;
    m.views[key * 2 + 1] = View::unset(to);
    join(&mut m.queues[from as usize], key as u8 * 2);
    m.messages[key] = Message {
        flying: true,
        own,
        word,
    };
    m.made += 1;
    Ok(())
}
