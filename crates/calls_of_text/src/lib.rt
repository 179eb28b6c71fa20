//! Calls of the crates of bytes and text, each made once with ample memory and compared with what it has to answer.
//!
//! A body that always answered want of memory would meet its contract; these tests refuse it. They stand apart from
//! the crates that they call, since the tests of a crate prove the whole crate once more.
#![tactic(auto)]

#[cfg(test)]
mod chain_input;
#[cfg(test)]
mod live_input;
#[cfg(test)]
mod load;
#[cfg(test)]
mod outside;
#[cfg(test)]
mod scripts;
