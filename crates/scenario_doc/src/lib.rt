//! Scenario documents: what they stand for, and what is wrong with the others.
#![tactic(auto)]

mod controllers;
mod draft;
mod flows;
pub mod laws;
mod network;
mod numbers;
mod packets;
mod plans;
mod rules;
mod rules_network;
mod rules_presets;
mod rules_script;
mod rules_taken;
mod scenario;
mod script;
mod write_draft;
mod write_flows;
mod write_laws;
mod write_network;
mod write_packets;
mod write_script;
mod write_setup;

pub use doc_forms::{DocFail, Path};
pub use draft::{Draft, DraftForm, Invariants, VersionForm};
pub use network::SwitchDraft;
pub use plans::{Plan, Plans};
pub use rules::{Rules, each};
pub use scenario::{Scenario, read_scenario};
pub use write_script::line_text;
pub use write_setup::{scenario_json, write_scenario};

#[cfg(test)]
mod tests;
