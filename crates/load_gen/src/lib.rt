//! A made workload, to measure with: a script of so many rounds of calls, and the summary of its run.
//!
//! The script is stated as a list of events. Contracts see a `Summary` by its counts, which are stated over the
//! script's run.
#![tactic(auto)]

mod count;
pub mod laws;
mod rounds;
mod summary;

pub use count::calls;
pub use rounds::make;
pub use summary::Summary;
