//! One history that many threads add to, one turn at a time, where no call waits.
#![tactic(auto)]

mod book;
mod held;
pub mod sample;
mod seat;
#[cfg(test)]
mod tests;
mod turn;
mod view;

pub use book::Book;
pub use held::Held;
pub use seat::Seat;
pub use turn::{TurnBook, Turned};
