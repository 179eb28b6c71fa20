//! What a cluster is made of, and what is printed of its steps.
//!
//! `Parts` are the manager, the servers with the mark of each that has stopped, the clients, the bag with every packet that
//! was sent, and the journal of the history; they stand for a world (`world_of`). What a step did beside its change of them
//! is `Noted`, and `put_step` puts the step's lines. Which steps there are, and what they do, is no part of this crate.
#![tactic(auto)]

mod bag;
mod lines;
mod parts;
mod start;

pub use bag::Bag;
pub use lines::{Lines, end_lines, put_step};
pub use parts::{Noted, Parts, PartsTelling, Telling, note};
pub use start::{callers, founders, running};
