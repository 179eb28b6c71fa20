//! The program over sources and sinks in memory: with ample memory it is done, and reads and writes fail.
//!
//! A body that always answered want of memory would meet its contract; these tests refuse it. They stand apart from
//! the driver, since the tests of a crate prove the whole crate once more.
#![tactic(auto)]

#[cfg(test)]
mod script;
#[cfg(test)]
mod writes;
