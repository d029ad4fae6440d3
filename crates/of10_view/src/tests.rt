//! Views of whole messages, and messages out of streams.
mod streams;
mod views;
