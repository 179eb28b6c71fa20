//! The manager of a chain: it makes each view out of the one before.
//!
//! Contracts see a `Manager` as the views that it made, the last of them current, and how many servers were ever made. It
//! learns from outside that a server has stopped, that one is to join, and that the joiner has caught up; each makes one
//! view, which is the one before without a server, with one more, or with the joiner as a member. kr_protocol has the laws:
//! how an earlier view and a later one stand to each other.
#![tactic(auto)]

mod manager;

pub use manager::{Deny, MOST_SERVERS, Manager};
