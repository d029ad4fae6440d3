//! Alike items: those that differ only in what differs between two equal behaviours.
#![tactic(auto)]

mod compare;
pub mod laws;
mod masked;

pub use compare::alike;
pub use masked::{Masked, mask};

#[cfg(test)]
mod tests;
