//! OpenFlow 1.0.0: messages in place. A view lends the parts of a message's bytes, and a cutter finds the messages of a
//! stream that comes in pieces. A view lends from the bytes that it is given, a cutter from what it holds.
#![tactic(auto)]

mod actions;
mod cutter;
pub mod laws;
mod view;

pub use actions::{ActionView, Actions};
pub use cutter::{Cutter, Next};
pub use view::View;

#[cfg(test)]
mod tests;
