// The setup: which are illegal, the machine of a legal one, and the empty machine.
ghost use Rattle.std.specs.Prelude.{◌≡◌, ◌≤◌, ltb};
ghost use Rattle.protocol.specs.Setup.{empty_machine, fresh_with, legal, legal_actor, legal_actors, of_actors, stores_in};
ghost use Rattle.protocol.specs.Stores.{fresh_store};
ghost use Rattle.protocol.specs.Words.{table};

use protocol::sets::is_in;
use protocol::{Contents, Entry, Links, Message, Queue, Repair, Setup, State, Status, Store, View};

/// How many stores a list has.
fn stores_in(list: u8) -> u8
    ensures { result ≡ stores_in list }
{
    list % 2
        + list / 2 % 2
        + list / 4 % 2
        + list / 8 % 2
        + list / 16 % 2
        + list / 32 % 2
        + list / 64 % 2
        + list / 128 % 2
}

/// A home and a list name stores, the home is in the list, and the list has two stores or more.
#[tactic(auto, unfolding(protocol::specs::Setup::legal_actor))]
fn legal_actor(stores: u8, home: u8, list: u8) -> bool
    requires { stores ≤ 8 }
    ensures { result ≡ legal_actor stores home list }
{
    home < stores
        // Two bytes wide, since with eight stores nothing is left of a byte.
        && u16::from(list) >> stores == 0
        && is_in(u32::from(list), home as usize)
        && 2 <= stores_in(list)
}

/// Rows behind the last actor are not looked at.
#[tactic(auto, unfolding(protocol::specs::Setup::legal_actors, protocol::specs::Words::all_from))]
fn legal_actors(u: &Setup) -> bool
    requires { u.now.stores ≤ 8 }
    ensures { result ≡ legal_actors u.now.stores u.now.actors u.now.homes u.now.lists }
{
    u.homes.iter().enumerate().all(|(a, &home)| {
        u.actors as usize <= a || legal_actor(u.stores, home, u.lists[a])
    })
}

/// Stores and actors are 2 to 8, and each actor's home and list are legal.
#[tactic(auto, unfolding(protocol::specs::Setup::legal))]
pub fn legal(u: &Setup) -> bool
    ensures { result ≡ legal u.now.stores u.now.actors u.now.homes u.now.lists }
{
    2 <= u.stores && u.stores <= 8 && 2 <= u.actors && u.actors <= 8 && legal_actors(u)
}

/// What the rows of the actors say, blank behind the last.
#[tactic(auto, using(unbroken::proofs::Fill::fill_end, unbroken::proofs::Fill::fill_start, unbroken::proofs::Fill::fill_step))]
fn rows(actors: u8, l: &[u8; 8]) -> [u8; 8]
    ensures { result ≡ table (of_actors actors l.now) 8 }
{
    let mut kept = [0; 8];
    for a in 0..8 {
        kept[a] = if a < actors as usize { l[a] } else { 0 };
    }
    kept
}

/// Nothing held, nothing owed.
fn fresh_store(up: bool) -> Store
    ensures { result ≡ fresh_store up }
{
    Store {
        up,
        held: 0,
        kept: 0,
        acksowed: 0,
        uacksowed: 0,
        viewlinks: [0; 32],
        keptlinks: [0; 32],
    }
}

/// The stores that are there are up.
#[tactic(auto, using(unbroken::proofs::Fill::fill_end, unbroken::proofs::Fill::fill_start, unbroken::proofs::Fill::fill_step))]
fn fresh_stores(stores: u8) -> [Store; 8]
    ensures { result ≡ table (λ p. fresh_store (ltb p stores)) 8 }
{
    let mut shelves = [fresh_store(false); 8];
    for p in 0..8 {
        shelves[p] = fresh_store(p < stores as usize);
    }
    shelves
}

/// The machine of a setup: nothing made, nothing in flight, nothing held, all stores up. Rows behind the last actor are blank.
#[tactic(auto, unfolding(protocol::specs::Setup::fresh_with))]
pub fn fresh(u: &Setup) -> State
    ensures { result ≡ fresh_with u.now.stores u.now.actors u.now.homes u.now.lists }
{
    let queue = Queue {
        len: 0,
        views: [0; 16],
    };
    let message = Message {
        flying: false,
        own: 0,
        word: 0,
    };
    let repair = Repair {
        flying: false,
        destination: 0,
        own: 0,
    };
    let entry = Entry {
        status: Status::Nothing,
        destination: 0,
        own: 0,
    };
    let contents = Contents {
        asserter: 0,
        causes: 0,
        word: 0,
    };
    State {
        stores: u.stores,
        actors: u.actors,
        made: 0,
        homes: rows(u.actors, &u.homes),
        lists: rows(u.actors, &u.lists),
        queues: [queue; 8],
        shelves: fresh_stores(u.stores),
        messages: [message; 16],
        views: [View::unset(0); 32],
        repairs: [repair; 32],
        entries: [entry; 32],
        records: [0; 256],
        acks: [0; 256],
        updates: [0; 256],
        uacks: [0; 256],
        contents: [contents; 256],
        links: [Links { to: [0; 16] }; 128],
    }
}

/// No stores, actors or interactions.
#[tactic(auto, unfolding(protocol::specs::Setup::empty_machine))]
pub fn empty() -> State
    ensures { result ≡ empty_machine }
{
    fresh(&Setup {
        stores: 0,
        actors: 0,
        homes: [0; 8],
        lists: [0; 8],
    })
}
