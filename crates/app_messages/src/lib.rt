//! What the applications of a controller read of a packet that came up, and what they send.
#![tactic(auto)]

mod seen;
mod sent;

pub use seen::Seen;
pub use sent::add;

#[cfg(test)]
mod tests;
