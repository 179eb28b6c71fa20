//! The graph of events: which are held, and which pairs put one before another.
//!
//! Contracts see a `Graph` as a `GraphView`: the held events, the pairs from the oldest to the newest, the bare events,
//! how many events and pairs can be added without memory, and which event stands in which cell. The pairs close no
//! cycle. Only an event without a predecessor is taken out, with its pairs; a successor that it leaves without one is
//! bare until it is asked for.
//!
//! A look-up by event takes a logarithm of the held events, and each step along an event's successors is constant. To
//! take an event out costs a look-up and a step for each of its pairs. What was taken out leaves gaps, which `reserve`
//! closes up once they are more than what is left: so room comes back, and this too is constant for each event and
//! pair that was taken out. Only `reserve` takes memory.
#![tactic(auto)]

mod graph;
mod links;
mod outs;
mod table;

pub use graph::Graph;
pub use outs::{Outs, Successor};
pub use table::EventTable;
