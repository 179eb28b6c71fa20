//! Answers to waiting queries, from any order that can be asked.
//!
//! The answers are those that one thread gives, one query after the other, whatever the number of workers. Each worker has a
//! run of the queries, and searches for each pair of events in it once, however often it is asked. What workers search in
//! can be kept from call to call, so that a call costs what it searches, and nothing for the events that there are.
#![tactic(auto)]

mod worker;
mod workers;

pub use workers::{MOST_WORKERS, Workers, answer_all};
