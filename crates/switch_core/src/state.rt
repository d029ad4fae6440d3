//! The state of a switch.

use flow_table::Table;

/// A switch as its parts.
#[derive(Debug, Drop)]
pub struct State {
    /// The number of the switch.
    pub number: u16,
    /// How many ports it has; they are numbered from 1.
    pub ports: u16,
    /// The flow table.
    pub table: Table,
    /// Seconds since the switch started.
    pub clock: u32,
    /// The xid of the next message of its own.
    pub next_xid: u32,
    /// What a SET_CONFIG left (OpenFlow 1.0.0 section 5.3.2). It is answered, and has no other effect.
    pub flags: u16,
    /// As `flags`: how much of a packet a controller would be sent.
    pub miss_send_len: u16,
    /// Bit p - 1 is set where port p is down.
    pub down: u64,
}
