//! Two copies of the order: readers that never wait, beside one writer.
//!
//! The writer puts each entry into the copy that no reader is in, and publishes it; then into the other one. A reader
//! enters the published copy and answers from it. Contracts see the writer as the published list, and a reader as the
//! beginning of it that the reader saw or was told of; both, and the notes that tell, by the identity of their copies.
//! What a reader is told is of a list that begins with all that it saw and learnt before. Only the writer waits: for
//! readers that are still in the copy that it wants to change.
//!
//! The copies, and the log that they are beginnings of, have a rule that each step keeps; module `laws` says of which
//! kinds the steps are.
#![tactic(auto)]

mod asking;
mod copies;
mod door;
mod history;
pub mod laws;
mod publishing;
mod reader;
mod rule;
mod writer;

pub use door::{Door, Opened, Shut};
pub use history::Note;
pub use reader::{BoardReader, QueryStop, Readers};
pub use writer::{BoardWriter, two_copies};
