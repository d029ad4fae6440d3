//! The network: its switches, links and hosts, which of them are up, and where a packet comes to that leaves by a port.
#![tactic(auto)]

mod invariant;
mod landing;
mod network;
mod status;

pub use invariant::Invariant;
pub use landing::{Landing, Why, emit};
pub use network::{Flags, Hosts, Links, Owners, Places, Ports, Topology};
pub use status::{Status, first_places};

#[cfg(test)]
mod tests;
