//! A smallest part of a script, by delta debugging, whose replay still ends in a violation.
#![tactic(auto)]

pub mod laws;
mod marks;
mod reduced;
mod search;
mod trial;

pub use reduced::{ReduceNo, Reduced, reduce};
