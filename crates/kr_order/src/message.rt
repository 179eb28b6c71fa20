//! The parties to the protocol, and the packets that they send.

use crate::{Asked, ClientId, Command, Copied, Entries, NoMemory, Placed, ServerId, Told, View};
use std::alloc::Global;

/// A party to the protocol.
#[derive(Clone, Copy, Debug, PartialEq, Eq)]
pub enum Node {
    Manager,
    Client(ClientId),
    Server(ServerId),
}

/// What a packet says.
#[derive(Debug, Drop)]
pub enum Message {
    /// A client asks a server to do its command of this sequence number.
    Request { seq: u64, command: Command },
    /// A server passes entries of its log on to the next one, from the place `first` on.
    Append { first: u64, entries: Entries },
    /// A server tells the one before it how many entries are acknowledged to it, and how many its log has.
    Ack { done: u64, len: u64 },
    /// The manager tells a server of a view.
    NewView { view: View },
    /// A server tells a client the reply of its command of this sequence number.
    Replied { seq: u64, placed: Placed },
    /// A client asks a server about pairs of events. `q` is the number of its query, from 1; `part` is 1 for
    /// the query as it was asked, and 2 for the pairs of it that are asked again.
    Ask { q: u64, part: u8, pairs: Asked },
    /// A server tells a client the answers to this part of its query.
    Answered { q: u64, part: u8, told: Told },
    /// A server tells a client that it does not answer this part of its query, and which view it has adopted.
    Refer { q: u64, part: u8, view: View },
    /// The last server tells the manager that the joiner has caught up.
    Joined { joiner: ServerId },
}

/// A message with its sender and its addressee.
#[derive(Debug, Drop)]
pub struct Packet {
    pub from: Node,
    pub to: Node,
    pub message: Message,
}

impl Copied for Message {
    fn copy(&self, alloc: Global) -> Result<Self, NoMemory> {
        match self {
            Message::Request { seq, command } => Ok(Message::Request {
                seq: *seq,
                command: command.copy(alloc)?,
            }),
            Message::Append { first, entries } => Ok(Message::Append {
                first: *first,
                entries: entries.copy()?,
            }),
            Message::Ack { done, len } => Ok(Message::Ack {
                done: *done,
                len: *len,
            }),
            Message::NewView { view } => Ok(Message::NewView {
                view: view.copy(alloc)?,
            }),
            Message::Replied { seq, placed } => Ok(Message::Replied {
                seq: *seq,
                placed: placed.copy(alloc)?,
            }),
            Message::Ask { q, part, pairs } => Ok(Message::Ask {
                q: *q,
                part: *part,
                pairs: pairs.copy()?,
            }),
            Message::Answered { q, part, told } => Ok(Message::Answered {
                q: *q,
                part: *part,
                told: told.copy(alloc)?,
            }),
            Message::Refer { q, part, view } => Ok(Message::Refer {
                q: *q,
                part: *part,
                view: view.copy(alloc)?,
            }),
            Message::Joined { joiner } => Ok(Message::Joined { joiner: *joiner }),
        }
    }
}

impl Copied for Packet {
    fn copy(&self, alloc: Global) -> Result<Self, NoMemory> {
        Ok(Packet {
            from: self.from,
            to: self.to,
            message: self.message.copy(alloc)?,
        })
    }
}
