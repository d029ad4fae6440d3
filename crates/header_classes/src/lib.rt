//! Cells of headers, the classes that the entries of a flow table cut them into, and what sets make of them.
#![tactic(auto)]

mod cell;
mod cutting;
mod fields;
mod interval;
pub mod laws;
mod order;
pub mod partition;
mod rewrite;
mod settle;
mod trials;

pub use cell::{Cell, Cells, Classes};
pub use cutting::cut;
pub use interval::Interval;
pub use rewrite::Rewrite;
pub use trials::Trials;

#[cfg(test)]
mod tests;
