//! Packets as bytes: the one spelling of each packet, and the packet of each spelling.
//!
//! A packet is its fields one after the other, each number unsigned with its highest byte first. A packet whose
//! fields hold allowed values has exactly one spelling, no spelling is the front of another, and all other bytes are
//! refused. Entries and replies have spellings of their own inside, which are written and read by themselves too.
#![tactic(auto)]

mod commands;
mod fields;
mod items;
pub mod laws;
mod messages;
mod packets;
mod party;
mod replies;
mod stop;
mod views;

pub use packets::{addressee, decode, encode, entry_at, put_entry, put_reply, reply_at};
pub use stop::WireError;
