//! The routing application of a controller: it sends packets along shortest paths.
#![tactic(auto)]

mod changes;
pub mod laws;
mod map;
mod numbers;
mod queue;
mod reach;
mod rounds;
mod routing;
mod table;
mod told;
mod ways_in;

pub use map::Map;
pub use routing::Routing;

#[cfg(test)]
mod tests;
