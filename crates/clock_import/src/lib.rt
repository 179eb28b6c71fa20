//! Logs of processes become events, pairs and vector clocks.
//!
//! A log gives the number of its processes, and then one line an event: a step of one process that is its own, sends a
//! message or receives one. Each line is an event; it is after the one before it of its process, and a receive is after
//! its send, wherever the two stand. Those are the pairs of the order. A log is answered with them and with the vector
//! clock of each event, or with the first line whose pairs close a cycle with those above it.
#![tactic(auto)]

mod bring;
mod clocks;
mod commands;
mod cut;
mod imported;
pub mod laws;
mod links;
mod log;
mod messages;
mod order;
mod pairs;
mod print;
mod read;

pub use bring::{ImportStop, import};
pub use commands::Commands;
pub use imported::{Clock, Clocked, Clockeds, EventPairs, Imported};
pub use print::{put_events, put_import, put_order};
