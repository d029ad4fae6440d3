//! The lines in which results are told.
#![tactic(auto)]

mod events;
mod replays;
mod sequences;
mod verdicts;

pub use replays::replay_lines;
pub use sequences::sequence_lines;
pub use verdicts::verdict_lines;

#[cfg(test)]
mod tests;
