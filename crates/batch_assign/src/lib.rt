//! Batches: the pairs that a command assigns to the order, taken as one or refused as one.
//!
//! `plan` says what a batch is to do and changes nothing, and `commit` does it and takes no memory. A batch is
//! refused at its first pair with an event that is not live, and else at its first must that the order forbids,
//! with the musts before it.
//!
//! A plan takes at most two searches through the graph for each pair of the batch.
#![tactic(auto)]

mod adds;
mod carry_out;
mod decide;
mod draft;

pub use adds::{Adds, BatchStop, Plan};
pub use carry_out::commit;
pub use decide::plan;
