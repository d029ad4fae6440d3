//! What a run starts from: a network, presets, controllers, a script and limits; and whether a run can start from it.
#![tactic(auto)]

mod network;
mod preset;
mod presets;
mod script;
mod setup;
mod valid;

pub use preset::{Preset, Presets, SwitchPresets};
pub use script::{Input, Line, Script};
pub use setup::{Controllers, Limits, Setup};

#[cfg(test)]
mod tests;
