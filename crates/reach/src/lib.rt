//! Searches for paths through a graph of events, with a bound on their steps.
//!
//! A step is an event that is taken up or a pair that is looked at. Contracts see a `Scratch` as a number, its room:
//! how many cells a graph may have that is searched with it. Only `fit` takes memory, and a search clears nothing. A
//! `Trail` is lent from a scratch where one search after another begins at one event.
#![tactic(auto)]

mod asks;
mod found;
mod pairs;
mod scratch;
mod search;
mod trail;

pub use asks::Asks;
pub use scratch::Scratch;
pub use search::{answer_over, reaches, reaches_with};
pub use trail::Trail;
