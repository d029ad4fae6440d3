//! What a controller of OpenFlow switches is to the machine: a state that reacts to what it hears.
#![tactic(auto)]

mod controller;
mod item;
mod outbox;

pub use controller::Controller;
pub use item::UpItem;
pub use outbox::{Outbox, SentMessages};

#[cfg(test)]
mod tests;
