//! The driver of runs on threads: what the program does with its words, its input and its output where each client's calls
//! are made on a thread of its own, and where a chain of nodes runs on threads.
//!
//! `kronos_live` is that part of the program without its standard input and output: over any source and any sink of bytes,
//! and any gate. Its contract says for each of its ends what was read, what was written, and why it came.
#![tactic(auto)]

mod form;
mod live;
mod nodes;
mod print;
mod run;

pub use kronos_runs::Exit;
pub use live::kronos_live;
