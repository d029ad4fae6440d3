//! What the calls of a recorder answer.
use crate::task::{Deed, Task};

/// What an offer of an actor's work answers.
#[derive(Clone, Copy, Debug, PartialEq, Eq)]
pub enum Offered {
    /// The actor's first event, in the order of pools; for the script its next line.
    Work(Task),
    /// The actor has nothing to do after so many entries: none of its pools has an item; the script has no line left, or its next
    /// one waits until nothing waits anywhere.
    NothingNow { place: u64 },
    /// The run is complete, with so many entries.
    Ended { place: u64 },
    /// Another worker had the turn: the numbers that the first and the last look met, as for a turn of the book.
    Busy { looked: u64, found: u64 },
}

/// What entering a deed answers. Every answer but `Entered` hands the deed back, and leaves the history as it was.
#[derive(Clone, Copy, Debug, PartialEq, Eq)]
pub enum Committed {
    /// The event happened: it is the entry at this place.
    Entered {
        place: u64,
    },
    /// The item that the event takes is no longer the first one of its pool, which is `head`.
    Overtaken {
        deed: Deed,
        item: u64,
        head: Option<u64>,
    },
    /// The run is complete, with so many entries.
    Ended {
        deed: Deed,
        place: u64,
    },
    /// Another worker had the turn.
    Busy {
        deed: Deed,
        looked: u64,
        found: u64,
    },
    OutOfMemory {
        deed: Deed,
    },
}
