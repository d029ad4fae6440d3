//! Made-up scenarios: a ring of switches, and a script that is drawn from a seed.
#![tactic(auto)]

mod draws;
mod generated;
mod ring;
mod script;

pub use generated::{Generated, Invariants, generate};

#[cfg(test)]
mod tests;
