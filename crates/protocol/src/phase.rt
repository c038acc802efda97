//! The phases of a view, by number: every number is a machine value, and a phase behind the last is broken.

/// A receiver that has not received: just its actor is set.
pub const NOT_MADE: u8 = 0;

/// In its queue.
pub const QUEUED: u8 = 1;

/// Its cause links are checked.
pub const READY: u8 = 2;

/// Its record is on its way.
pub const SENT: u8 = 3;

/// Its store has acknowledged it.
pub const ACKNOWLEDGED: u8 = 4;

/// Out of its queue.
pub const SETTLED: u8 = 5;
