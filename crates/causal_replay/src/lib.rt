//! Replays of a run with some of its inputs, and what they rest on: alike items make alike steps and reactions.
#![tactic(auto)]

pub mod congruence;
pub mod laws;
mod replayed;

pub use replayed::{Indices, Replayed, Steps, Taken, Why, replay};

#[cfg(test)]
mod tests;
