//! The types of the 2004 protocol's provenance store: a message, the tables, what is answered, and why nothing is taken.

#![tactic(auto)]

mod refusal;

pub use refusal::StoreRefusal;

/// ACTIVITYID, which identifies one exchange between a client and a service.
#[derive(Clone, Copy, Debug, Default, PartialEq, Eq)]
pub struct Activity {
    pub session: u32,
    pub nonce: u32,
    pub thread: u32,
    pub client: u32,
    pub service: u32,
}

/// What a message says: the five kinds that a provenance store takes, each with its fields.
#[derive(Clone, Copy, Debug)]
pub enum Said {
    Negotiation {
        list: u32,
        accepted: u32,
        extra: u32,
    },
    Invocation {
        extra: u32,
        word: u32,
    },
    Result {
        extra: u32,
        word: u32,
    },
    Finished {
        count: u32,
    },
    Additional {
        extra: u32,
    },
}

/// A message of one side of an activity.
#[derive(Clone, Copy, Debug)]
pub struct Message {
    pub sender: u32,
    pub activity: Activity,
    pub said: Said,
}

/// What a table has of a negotiation: nothing, or the fields of the message that was taken.
// Stays a flag beside its fields, no Option: `first_store::receive` answers every store, one too that has fields of what it doesn't hold.
#[derive(Clone, Copy, Debug, Default)]
pub struct Negotiated {
    pub held: bool,
    pub list: u32,
    pub accepted: u32,
    pub extra: u32,
}

/// An invocation or a result.
// Stays a flag beside its fields, no Option: `first_store::receive` answers every store, one too that has fields of what it doesn't hold.
#[derive(Clone, Copy, Debug, Default)]
pub struct Transmitted {
    pub held: bool,
    pub extra: u32,
    pub word: u32,
}

/// A submission finished, with the number of messages that it announces.
// Stays a flag beside its fields, no Option: `first_store::receive` answers every store, one too that has fields of what it doesn't hold.
#[derive(Clone, Copy, Debug, Default)]
pub struct Announced {
    pub held: bool,
    pub count: u32,
}

/// The additional messages, in the order taken; a count past eight is eight.
// Stays an array with a count: `first_store::receive` answers every store, one too whose count is past eight.
#[derive(Clone, Copy, Debug, Default)]
pub struct Added {
    pub count: u8,
    pub extras: [u32; 8],
}

/// The activities, in the order of their first taken message; a count past sixteen is sixteen.
// Stays an array with a count: `first_store::receive` answers every store, one too whose count is past sixteen.
#[derive(Clone, Copy, Debug)]
pub struct Store {
    pub used: u8,
    pub exchanges: [Exchange; 16],
}

/// An activity's row in the client table, or in the service table.
#[derive(Clone, Copy, Debug, Default)]
pub struct Side {
    pub negotiation: Negotiated,
    pub invocation: Transmitted,
    pub result: Transmitted,
    pub finished: Announced,
    pub additional: Added,
}

/// An activity with its row in each table.
#[derive(Clone, Copy, Debug)]
pub struct Exchange {
    pub activity: Activity,
    pub client: Side,
    pub service: Side,
}

/// The acknowledgement of one message. A submission finished has none by itself.
#[derive(Clone, Copy, Debug, PartialEq, Eq)]
pub enum Ack {
    NegotiationAck,
    InvocationAck,
    ResultAck,
    AdditionalAck,
}

/// To whom the submission finished acknowledgement goes now.
#[derive(Clone, Copy, Debug, PartialEq, Eq)]
pub struct Finishing {
    pub client: bool,
    pub service: bool,
}

/// What a message that is taken gets: its own acknowledgement, and the submission finished acknowledgements.
#[derive(Clone, Copy, Debug, PartialEq, Eq)]
pub struct Receipt {
    pub ack: Option<Ack>,
    pub finished: Finishing,
}

/// What a message gives: the store after it, the same where it is refused, and what is answered.
#[derive(Clone, Copy, Debug)]
pub struct Received {
    pub store: Store,
    pub answer: Result<Receipt, StoreRefusal>,
}
