//! The program `sts` as a call over any source and any sink.
#![tactic(auto)]

mod answer;
mod gates;
mod jobs;
pub mod laws;
mod lines;
mod made;
mod recording;
mod sequence;
mod status;
mod top;
mod verdicts;
mod words;

pub use gates::open_gates;
pub use status::Status;
pub use top::sts;
pub use words::{Aim, Form, Job};

#[cfg(test)]
mod tests;
