//! A whole cluster in one process, stepped by the events of a script.
//!
//! Contracts see a `Cluster` as the world of the definitions, how many pairs were told as before, and whether it has
//! failed. A step's contract is the world's step and its lines. A cluster fails where a step finds no memory; each later call that can
//! answer `NoMemory` then does.
#![tactic(auto)]

mod cluster;
mod count;
mod refusals;
mod round;
mod step;

pub use cluster::Cluster;
pub use cluster_parts::Lines;
