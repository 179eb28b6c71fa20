//! The answers that a client keeps to tell them again: a cache of pairs of events, over the kit's `lru`.
//!
//! Contracts see a `Cache` as the list of its items, the most recently used first, and as how many there may be. An
//! item is a pair with the lesser event first and what was told of it; no pair stands in two items, and each answer is
//! one that can never change. A pair and its mirror, the same two events in the other order, are one item.
#![tactic(auto)]

mod cache;

pub use cache::{Cache, Seen};
