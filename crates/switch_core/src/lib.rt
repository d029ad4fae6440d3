//! One OpenFlow 1.0.0 switch: what it does with each message, each packet and each notice.
#![tactic(auto)]

pub mod laws;
mod leaving;
mod outs;
mod planned;
mod ports;
mod refusals;
mod sending;
mod state;
mod steps;
mod switch;

pub use leaving::{Leaving, News};
pub use outs::{Emits, Outs, Ups};
pub use planned::{Counts, Planned};
pub use state::State;
pub use switch::Switch;

#[cfg(test)]
mod tests;
