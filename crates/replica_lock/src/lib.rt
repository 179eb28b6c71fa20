//! A turn: a value that one holder at a time takes and gives back, and a count of its history.
//!
//! A turn is made with up to sixteen seats. Who has a seat takes the value out by it, and gives it back as it was or with
//! one entry more. The history word counts the entries that were given. Contracts see a seat by what it gave and saw;
//! they see the value by its name, which stays, and in the end it has as many entries as all seats gave. Only `take`
//! waits, and only the making of a turn takes memory.
//!
//! The words and the value lie in a table whose rule each step keeps; module `laws` says of which kinds the steps are.
#![tactic(auto)]

mod held;
pub mod laws;
mod making;
mod rule;
mod seat;
mod standing;
#[cfg(test)]
mod tests;
mod turn;

pub use held::Held;
pub use seat::{MOST_GIVES, MOST_SEATS, Seats, TurnSeat};
pub use turn::{Busy, Turn, TurnStop};
