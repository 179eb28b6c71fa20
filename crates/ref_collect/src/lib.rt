//! How many references each event has, and what is taken out of the graph once it has none.
//!
//! An event is live while it has a reference, and dead for good once it has none. Contracts see a `Refs` as the live
//! events with their counts, and as how many more can be born without memory. A count is looked up in a logarithm of
//! the live events. Only `reserve` takes memory.
//!
//! `collect` leaves of a graph the events that are live or have a live event before them, and their pairs.
#![tactic(auto)]

mod refs;
mod removal;

pub use refs::Refs;
pub use removal::collect;
