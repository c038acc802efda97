// The test for a broken value: every clause of the list, by the parts of the machine.
ghost use Rattle.std.specs.Prelude.{◌≡◌, length};
ghost use Rattle.protocol.specs.Broken.{broken_of, jobs_fine, places_fine, setup_fine, whole_of};

use crate::fresh::legal;
use crate::{flight, held, queues, views};
use protocol::{Setup, State};

/// Legal, or the empty machine's.
#[tactic(auto, unfolding(protocol::specs::Broken::setup_fine))]
fn setup_fine(m: &State) -> bool
    ensures { result ≡ setup_fine m.now.stores m.now.actors m.now.homes m.now.lists }
{
    let setup = Setup {
        stores: m.stores,
        actors: m.actors,
        homes: m.homes,
        lists: m.lists,
    };
    (m.stores == 0 && m.actors == 0) || legal(&setup)
}

/// The views with their queues, messages, repairs and entries.
#[tactic(auto, unfolding(protocol::specs::Broken::jobs_fine), using(crate::proofs::Marked::jobs_met, crate::proofs::Marked::jobs_unmet))]
fn jobs_fine(m: &State) -> bool
    ensures fine { result ≡ jobs_fine m.now }
    ensures slots { (length m.now.views ≡ 32) × (length m.now.queues ≡ 8) × (length m.now.messages ≡ 16) × (length m.now.repairs ≡ 32) × (length m.now.entries ≡ 32) }
{
    let met = queues::queues_met(m);
    // Where a queue is broken the marks don't count.
    let views = views::views_met(m, met.unwrap_or(0));
    met.is_some()
        & views
        & flight::messages_fine(m)
        & flight::repairs_fine(m)
        & flight::entries_fine(m)
}

/// Every place of a store: copies in flight, and what it holds.
#[tactic(auto, unfolding(protocol::specs::Broken::places_fine))]
fn places_fine(m: &State) -> bool
    ensures fine { result ≡ places_fine m.now }
    ensures slots { (length m.now.records ≡ 256) × (length m.now.acks ≡ 256) × (length m.now.updates ≡ 256) × (length m.now.uacks ≡ 256) × (length m.now.contents ≡ 256) × (length m.now.links ≡ 128) × (length m.now.shelves ≡ 8) }
{
    flight::records_fine(m, &m.records)
        & flight::records_fine(m, &m.acks)
        & flight::updates_fine(m, &m.updates)
        & flight::updates_fine(m, &m.uacks)
        & held::contents_fine(m)
        & held::links_fine(m)
        & held::stores_fine(m)
}

#[tactic(auto, unfolding(protocol::specs::Broken::whole_of, protocol::specs::Broken::slots_fine))]
fn is_whole(m: &State) -> bool
    ensures { result ≡ whole_of m.now }
{
    let rows = queues::rows_fine(m.actors, &m.homes) & queues::rows_fine(m.actors, &m.lists);
    let jobs = jobs_fine(m);
    let places = places_fine(m);
    m.made <= 16 && setup_fine(m) && rows && jobs && places
}

/// True exactly where a clause says so, for every value.
#[tactic(auto, unfolding(protocol::specs::Broken::broken_of))]
pub fn is_broken(m: &State) -> bool
    ensures { result ≡ broken_of m.now }
{
    !is_whole(m)
}
