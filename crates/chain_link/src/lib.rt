//! The link from a server to the next one in its chain: which entries are passed on, and which are taken.
//!
//! Contracts see a `Link` by the next server, and by how many entries this one is known to have. The next entries
//! behind these are sent in one message, at most 16 at a time, and sent again until they are acknowledged.
#![tactic(auto)]

mod intake;
mod link;

pub use intake::receive;
pub use link::Link;
