//! Log documents: a scenario, and the history of one run of it.
#![tactic(auto)]

mod entry;
mod items;
pub mod laws;
mod log;
mod rules;
mod write_entry;
mod write_items;
mod write_whole;

pub use log::{Log, read_log};
pub use scenario_doc::{DocFail, Path, Scenario};
pub use write_whole::write_log;

#[cfg(test)]
mod tests;
