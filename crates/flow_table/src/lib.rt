//! OpenFlow 1.0.0: a flow table, and what the actions of its entries do with a packet.
#![tactic(auto)]

mod best;
mod change;
mod command;
mod effect;
mod entry;
pub mod laws;
mod outputs;
mod table;

pub use command::Command;
pub use effect::{Effect, Gone10, Removed, TableNo};
pub use entry::Entry;
pub use outputs::{Output, Outputs, Target, outcome};
pub use table::{TABLE_CAPACITY, Table};

#[cfg(test)]
mod tests;
