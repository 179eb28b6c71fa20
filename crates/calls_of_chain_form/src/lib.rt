//! Runs of a chain on threads, and of the program's form `chain` over input and output in memory, with what they have to
//! answer.
//!
//! A body that always answered want of memory would meet its contract, and so would one whose nodes ran one after the other
//! or applied the plan by themselves; these tests refuse them. They stand apart from the crates that they call, since tests
//! of a crate prove the whole crate once more.
#![tactic(auto)]

#[cfg(test)]
mod nodes;
#[cfg(test)]
mod rows;
