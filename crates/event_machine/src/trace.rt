//! The history of a run.
use event_world::Event;
use listed::Listed;
use message_pools::Item;

/// One event of a history.
#[derive(Debug, Drop)]
pub struct Entry {
    /// The worker that recorded it.
    pub worker: u32,
    /// How many entries of that worker stand before it.
    pub number: u64,
    pub event: Event,
    /// The item that the event took; none for an input.
    pub item: Option<Item>,
}

/// Entries in the order of the history.
pub type Entries = Listed<Entry>;

/// How a run ended.
#[derive(Clone, Copy, Debug, PartialEq, Eq)]
pub enum End {
    /// The script is used up, and nothing waits.
    Quiet,
    /// The run has as many events as it may have, and the script is not used up or something still waits.
    Full,
}

/// A whole history.
#[derive(Debug, Drop)]
pub struct Trace {
    pub entries: Entries,
    pub end: End,
}
