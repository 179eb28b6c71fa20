//! In how many rounds every call is answered: from a world to which no server joins and whose members all run, a stated
//! number of rounds leaves no call open, and every server that runs up to date.
//!
//! It has no code: its law says so of the worlds of every script's run.
#![tactic(auto)]

pub mod laws;
