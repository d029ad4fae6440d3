//! Recording: one run of the machine that many workers make together, one turn at a time.
#![tactic(auto)]

mod answers;
mod at_once;
mod begun;
mod book;
mod drive;
mod gate;
pub mod laws;
mod part;
mod recorder;
mod task;

pub use answers::{Committed, Offered};
pub use at_once::{Recorded, record, record_to_end};
pub use book::Subject;
pub use drive::Left;
pub use gate::{Gate, OpenGate};
pub use part::{Part, Parts};
pub use recorder::Recorder;
pub use task::{Deed, Task};

#[cfg(test)]
mod tests;
