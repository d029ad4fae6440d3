//! Applications of a controller: a learning switch, and a firewall.
#![tactic(auto)]

mod firewall;
mod known;
pub mod laws;
mod learning;

pub use firewall::{Firewall, Rules};
pub use learning::Learning;

#[cfg(test)]
mod tests;
