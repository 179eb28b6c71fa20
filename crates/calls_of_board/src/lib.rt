//! Calls of the two copies of the order, each made once with ample memory and compared with what it has to answer: by one
//! thread and by several. `write_and_ask` is an example for who embeds the copies.
//!
//! A body that always answered want of memory, or shut each reader out, would meet its contract; these tests refuse it.
//! They stand apart from the crate that they call, since the tests of a crate prove the whole crate once more.
#![tactic(auto)]

#[cfg(test)]
mod board;
#[cfg(test)]
mod writing;
