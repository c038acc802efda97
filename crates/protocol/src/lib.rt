//! The types of the recorder: the machine's value, a step, and why a call is refused.
//!
//! A view's number is key * 2 + role; a place is store * 32 + view's number.

#![tactic(auto)]

ghost use Rattle.std.specs.Prelude.{◌≡◌, ◌<◌};
ghost use Rattle.protocol.specs.Broken.{has_in};
ghost use Rattle.protocol.specs.Numbers.{status_number};
ghost use Rattle.protocol.specs.Views.{unset_view};

pub mod phase;
pub mod refusal;
pub mod sets;

use sets::is_in;

/// A view's record at its actor. In phase 0 only the actor is set.
#[derive(Clone, Copy, PartialEq, Eq)]
pub struct View {
    pub actor: u8,
    // Stays a number, which `phase` has names for: a phase 7 is a machine value, and `broken_of` calls it broken.
    pub phase: u8,
    /// The current store, and the viewlink that is sent beside the record.
    pub store: u8,
    pub viewlink: u8,
    pub changed: bool,
    /// How often the current store was tried again, 0 to 3.
    pub tries: u8,
    /// Bit k for interaction k, and a link for each cause; a receiver has none.
    pub causes: u16,
    pub word: u32,
    pub links: [u8; 16],
}

impl View {
    /// Just the actor is set.
    pub fn unset(actor: u8) -> View
        ensures { result ≡ unset_view actor }
    {
        View {
            actor,
            phase: phase::NOT_MADE,
            store: 0,
            viewlink: 0,
            changed: false,
            tries: 0,
            causes: 0,
            word: 0,
            links: [0; 16],
        }
    }
}

/// An actor's queue: views' numbers, oldest first.
// Stays an array with its length: a length of 20 and what stands behind the end are machine values, which `broken_of` speaks of.
#[derive(Clone, Copy, PartialEq, Eq)]
pub struct Queue {
    pub len: u8,
    pub views: [u8; 16],
}

/// What a store holds of a view's record: an asserter, a data word and causes; zeros where neither of its states has it.
#[derive(Clone, Copy, PartialEq, Eq)]
pub struct Contents {
    pub asserter: u8,
    pub causes: u16,
    pub word: u32,
}

/// The cause links of a sender's contents.
#[derive(Clone, Copy, PartialEq, Eq)]
pub struct Links {
    pub to: [u8; 16],
}

/// A store: up or down; its working state, its checkpointed one and the notes that it owes. Sets of views have bit v for view v;
/// a viewlink is 0 for none and p + 1 for store p.
// Viewlinks stay numbers: theorems speak of p + 1 (`view_links_holds`), and `broken_of` of a viewlink 200.
#[derive(Clone, Copy)]
pub struct Store {
    pub up: bool,
    /// The views whose contents it has, working and checkpointed.
    pub held: u32,
    pub kept: u32,
    /// The views of which it owes an ack, and a uack.
    pub acksowed: u32,
    pub uacksowed: u32,
    /// The viewlinks by view, working and checkpointed.
    pub viewlinks: [u8; 32],
    pub keptlinks: [u8; 32],
}

impl Store {
    /// Whether one of its states has contents of a view.
    pub fn has_contents(&self, v: usize) -> bool
        requires { v < 32 }
        ensures { result ≡ has_in self.now v }
    {
        is_in(self.held, v) || is_in(self.kept, v)
    }
}

/// An application message: nothing, or the own store and data word that were sent.
// Stays a flag with its values, as a repair does: an own store beside no message is a machine value, which `broken_of` speaks of.
#[derive(Clone, Copy, PartialEq, Eq)]
pub struct Message {
    pub flying: bool,
    pub own: u8,
    pub word: u32,
}

/// A repair: nothing, or a destination and an own store.
#[derive(Clone, Copy, PartialEq, Eq)]
pub struct Repair {
    pub flying: bool,
    pub destination: u8,
    pub own: u8,
}

/// How far the coordinator is with a view.
#[derive(Clone, Copy, Debug, PartialEq, Eq, Hash)]
pub enum Status {
    Nothing,
    ToSend,
    Waiting,
    Done,
}

/// 0 nothing, 1 to-send, 2 waiting, 3 done.
impl From<Status> for u8 {
    ghost from_gives = { λ s n. n ≡ status_number s };

    fn from(s: Status) -> u8 {
        match s {
            Status::Nothing => 0,
            Status::ToSend => 1,
            Status::Waiting => 2,
            Status::Done => 3,
        }
    }
}

/// The coordinator's state for a view.
// Stays a status beside its values: a destination beside no entry is a machine value, which `broken_of` speaks of.
#[derive(Clone, Copy, PartialEq, Eq)]
pub struct Entry {
    pub status: Status,
    pub destination: u8,
    pub own: u8,
}

/// A machine's value.
// Stays arrays of a fixed size beside their counts: nothing is allocated, so no call can fail for memory.
#[derive(Clone, Copy)]
pub struct State {
    /// How many there are of each.
    pub stores: u8,
    pub actors: u8,
    pub made: u8,
    /// By actor.
    pub homes: [u8; 8],
    pub lists: [u8; 8],
    pub queues: [Queue; 8],
    /// By store.
    pub shelves: [Store; 8],
    /// By interaction, and by view.
    pub messages: [Message; 16],
    pub views: [View; 32],
    pub repairs: [Repair; 32],
    pub entries: [Entry; 32],
    /// Copies in flight, by place.
    pub records: [u8; 256],
    pub acks: [u8; 256],
    pub updates: [u8; 256],
    pub uacks: [u8; 256],
    /// What the stores hold of the views' records, by place: contents; the cause links of senders, at store * 16 + key.
    pub contents: [Contents; 256],
    pub links: [Links; 128],
}

/// What a setup is made from: rows behind the last actor are not looked at.
#[derive(Clone, Copy)]
pub struct Setup {
    pub stores: u8,
    pub actors: u8,
    pub homes: [u8; 8],
    pub lists: [u8; 8],
}

/// A step is one of eighteen kinds, each with its own fields.
// A role and a what stay numbers: a step with a role 2 or a what 4 is answered, with 2 (`step_refusals`).
#[derive(Clone, Copy)]
pub enum Step {
    Send {
        from: u8,
        to: u8,
        own: u8,
        word: u32,
        causes: u16,
    },
    Receive {
        key: u8,
    },
    PreCheck {
        actor: u8,
    },
    SendRecord {
        actor: u8,
    },
    Timeout {
        actor: u8,
        store: u8,
    },
    TakeRecord {
        store: u8,
        key: u8,
        role: u8,
    },
    TakeAck {
        store: u8,
        key: u8,
        role: u8,
    },
    PostCheck {
        actor: u8,
    },
    TakeRepair {
        key: u8,
        role: u8,
    },
    SendUpdate {
        key: u8,
        role: u8,
    },
    TakeUpdate {
        store: u8,
        key: u8,
        role: u8,
    },
    TakeUack {
        store: u8,
        key: u8,
        role: u8,
    },
    Expire {
        key: u8,
        role: u8,
    },
    Lose {
        what: u8,
        store: u8,
        key: u8,
        role: u8,
    },
    Crash {
        store: u8,
    },
    Restart {
        store: u8,
    },
    Checkpoint {
        store: u8,
    },
    Duplicate {
        what: u8,
        store: u8,
        key: u8,
        role: u8,
    },
}
