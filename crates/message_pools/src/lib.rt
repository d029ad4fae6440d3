//! What waits to be taken: the items of the machine, and the pools that they wait in.
#![tactic(auto)]

mod item;
mod pool;

pub use item::Item;
pub use pool::Pool;
