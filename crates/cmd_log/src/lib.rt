//! The log of one server: entries at the places 1, 2, .. of a history.
//!
//! Contracts see a `Log` as the list of its entries, the first of which has place 1. An entry is put at the end
//! and never changed. What a client has at the most is looked up, and no call walks the log.
#![tactic(auto)]

mod log;

pub use log::Log;
