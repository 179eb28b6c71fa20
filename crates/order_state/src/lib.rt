//! The replicated state of the order: what a server knows of the history that it has applied.
//!
//! Contracts see a `State` as its history, and as how many entries, events and pairs can be added without memory. A
//! call that may need memory leaves the history as it was, and the one that changes it needs none.
//!
//! Of the order a state keeps what is held: the events that are live or that a live event is before, and the pairs that
//! begin at these. Its replies and answers are those of the whole order.
//!
//! No call walks the history or the order: the cost of a create is constant, but for the steps at which a table grows
//! to a multiple of its size, and a release costs what it collects. An answer takes at most two searches for a path,
//! and a batch at most two for each of its pairs. A search clears nothing, takes up each event that it finds once, and
//! looks at each of its pairs once.
#![tactic(auto)]

mod board;
mod kept;
mod order;
mod state;

pub use board::{Board, PlainBoard};
pub use kept::{Kept, Prepared};
pub use state::State;
