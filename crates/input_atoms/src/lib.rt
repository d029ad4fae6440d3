//! Which inputs of a script are dropped or kept together, and the reduction of a failing set by delta debugging.
#![tactic(auto)]

pub mod laws;
pub mod pairing;
mod parts;
mod probe;
mod reduction;
mod thing;

pub use probe::Probe;
pub use reduction::{Atoms, Indices, ddmin};

#[cfg(test)]
mod tests;
