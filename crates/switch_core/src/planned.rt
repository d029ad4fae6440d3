//! What a step that changes no more than counts will do, before it is done.

use crate::outs::Outs;
use listed::Listed;

/// What a step that changes no more than counts will do.
#[derive(Debug, Drop)]
pub struct Planned {
    /// What it will send.
    pub outs: Outs,
    /// What it will change.
    pub counts: Counts,
}

/// What such a step changes: the entries that it counts, by their places in the table, in order, and the xid of the switch's
/// next message.
#[derive(Debug, Drop)]
pub struct Counts {
    pub hits: Listed<usize>,
    pub next_xid: u32,
}
