//! Bytes in and bytes out: a source and a sink that count their faults, ends in memory and over std,
//! and the two loops that a program needs: read all, write all.
#![tactic(auto)]

mod memory_sink;
mod memory_source;
mod never_fails;
mod reading;
mod sink;
mod source;
mod std_sink;
mod std_source;
mod supply;
#[cfg(test)]
mod tests;
mod void_sink;
mod writing;

pub use memory_sink::MemSink;
pub use memory_source::MemSource;
pub use never_fails::NeverFails;
pub use reading::{ReadFail, read_all};
pub use sink::Sink;
pub use source::{Failed, Source};
pub use std_sink::StdSink;
pub use std_source::StdSource;
pub use void_sink::VoidSink;
pub use writing::{WriteFail, write_all_bytes};
