//! The machine: the world that a scenario's setup comes to by events, and which histories of events are legal runs of it.
#![tactic(auto)]

pub mod laws;
mod legal;
mod numbers;
mod trace;

pub use event_world::{Actor, Event, NetState, PoolName, StepNo, Tables, World};
pub use legal::{LogNo, check_legal, is_done};
pub use machine_setup::{
    Controllers, Input, Limits, Line, Preset, Presets, Script, Setup, SwitchPresets,
};
pub use trace::{End, Entries, Entry, Trace};

#[cfg(test)]
mod tests;
