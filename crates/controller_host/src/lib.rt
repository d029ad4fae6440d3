//! A host: some applications that are one controller together.
#![tactic(auto)]

mod app;
mod apps;
mod host;
mod numbers;

pub use app::{App, Apps};
pub use host::Host;

#[cfg(test)]
mod tests;
