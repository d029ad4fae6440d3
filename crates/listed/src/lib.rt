//! Plain values: copies that equal their originals, an exact comparison, and lists and queues that contracts see as lists.
#![tactic(auto)]

mod distinct;
mod list;
mod plain;

pub use distinct::all_different;
pub use list::Listed;
pub use plain::Plain;

#[cfg(test)]
mod tests;
