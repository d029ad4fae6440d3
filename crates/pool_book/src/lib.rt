//! All pools of the machine by their names, in their one order, with an index of those in which something waits.
#![tactic(auto)]

mod actor;
mod all_names;
mod layout;
mod name;
mod pools;

pub use actor::Actor;
pub use name::PoolName;
pub use pools::Pools;

#[cfg(test)]
mod tests;
