//! One client of the service: it has at most one open call, numbers its commands 1, 2, 3 and so on, is told each reply
//! once, and remembers of its queries what can never change.
//!
//! Contracts see a `Client` as the client of the protocol's definitions, and whether it has failed. A client
//! fails where a call on it finds no memory; each later call that can answer `NoMemory` then does.
#![tactic(auto)]

mod answers;
mod client;
mod lookups;

pub use client::{CallStop, Client, Heard, RetryStop};
pub use kr_order::ToldReply;
