//! Calls of the import of logs, each made with ample memory, with what they have to answer. They stand apart from the crate
//! that they call, since tests of a crate prove the whole crate once more.
#![tactic(auto)]

#[cfg(test)]
mod logs;
