//! The forwarding state of a network.
use flow_table::Table;
use listed::Listed;
use topology::{Status, Topology};

/// The flow tables, by switch.
pub type Tables = Listed<Table>;

/// A network, what of it is up and where its hosts are, and the flow table of each switch.
#[derive(Debug, Drop)]
pub struct NetState {
    pub topology: Topology,
    pub status: Status,
    pub tables: Tables,
}
