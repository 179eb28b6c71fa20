//! Runs that are written: a script's, step by step, a load's, and the import of a log.
//!
//! A run ends in an `Exit`. Contracts say of each which text was due, how much of it the sink took, and why no more. What
//! all forms of the program share is here too: how the whole input is read, and how a text, a bad line and the usage line
//! are written.
#![tactic(auto)]

mod exit;
mod imports;
mod load;
mod outside;
mod run;
mod script;

pub use exit::Exit;
pub use imports::run_import;
pub use load::run_load;
pub use outside::{read_input, say_usage};
pub use run::{RunError, write};
pub use script::{exit_of, run_script, say_bad_line};
