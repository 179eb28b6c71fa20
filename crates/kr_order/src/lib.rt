//! The types and definitions that every crate of kronos shares: events, commands, histories, the order of
//! events, replies, answers, messages, and the lists of them.
//!
//! A history is a list of entries, each a client's command with its sequence number; its first entry has
//! place 1. The order that it gives its events is a list of pairs, to which batches add; an event is before
//! another where a path of pairs leads there. A view is a chain of servers. Contracts see a list type as the
//! list of its items. The definitions stand in `specs/`.
#![tactic(auto)]

mod answer;
mod batch;
mod capped;
mod display;
mod history;
mod ids;
pub mod laws;
mod list;
mod message;
mod size;
mod steps;
mod view;

pub use answer::{Answer, Answers, Asked, Parts, Query, Teller, Told, ToldPart};
pub use batch::{Batch, Kind, Outcome, Outcomes, Pair};
pub use capped::{Capped, MOST_PAIRS, PushStop};
pub use history::{Command, DoneEntry, Entry, Placed, Reply, ToldReply};
pub use ids::{ClientId, EventId, NoMemory, ServerId};
pub use list::{Copied, DoneList, Entries, Listed, Packets, Servers};
pub use message::{Message, Node, Packet};
pub use steps::Steps;
pub use view::View;
