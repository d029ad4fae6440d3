//! The machine's world: what it has come to, which events can happen, and what each event does.
#![tactic(auto)]

mod actors;
mod delivery;
mod effect;
mod event;
mod mail;
mod net_state;
mod shell;
mod world;

pub use event::Event;
pub use net_state::{NetState, Tables};
pub use pool_book::{Actor, PoolName};
pub use world::{StepNo, World};

#[cfg(test)]
mod tests;
