//! What a server and a client do with each message: the definitions that node code and the world share.
//!
//! A node's reaction is the node after it and what it sends. Servers are a chain: commands enter the log of the
//! first and are passed on to the next; what the last has is acknowledged, applied and replied, and the
//! acknowledgements go back up the chain.
#![tactic(auto)]

pub mod laws;
