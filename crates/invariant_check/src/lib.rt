//! Invariants of the forwarding state, each judged over every packet header.
#![tactic(auto)]

mod class;
mod explore;
mod hops;
pub mod judge;
pub mod laws;
mod least;
mod reach;
mod search;
mod stop;
mod tried;
mod walk;

pub use walk::{Finish, Node, Nodes, Verdict, Verdicts, Walk};

#[cfg(test)]
mod tests;
