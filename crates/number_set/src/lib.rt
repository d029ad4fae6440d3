//! A set of numbers below a count that is fixed when the set is made, which tells its least member at or past a number at once.
#![tactic(auto)]

mod bits;
mod set;

pub use set::{CAPACITY, NumberSet};

#[cfg(test)]
mod tests;
