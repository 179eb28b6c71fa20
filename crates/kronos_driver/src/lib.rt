//! The driver: what the program does with its words, its input and its output.
//!
//! `kronos_script` is the program without its standard input and output: over any source and any sink of bytes. Its
//! contract says for each of its ends what was read, what was written, and why it came.
#![tactic(auto)]

mod form;
mod script;
mod without_faults;

pub use kronos_runs::Exit;
pub use script::kronos_script;
pub use without_faults::exit_without_faults;
