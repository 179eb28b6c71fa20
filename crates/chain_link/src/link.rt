//! How many entries the next server is known to have, and the packet with those that it may lack.

ghost use Rattle.std.specs.Prelude.{◌≡◌, ◌<◌, length, max, min, None, IfOk, OnErr};
ghost use Rattle.kr_protocol.specs.Server.{window_of};

use cmd_log::Log;
use kr_order::{Message, NoMemory, Node, Packet, Packets, ServerId};
use std::alloc::Global;

// So many entries are sent in one message at the most.
const WINDOW_ENTRIES: usize = 16;

/// The link to the next server, if there is one.
#[derive(Clone, Copy, Debug, PartialEq, Eq)]
pub struct Link {
    next: Option<ServerId>,
    fed: u64,
}

impl Link {
    /// The link to no server.
    pub fn new() -> Self
        ensures next { result.next ≡ None }
        ensures fed { result.fed ≡ 0 }
    {
        Link { next: None, fed: 0 }
    }

    /// The next server is this one from now on. One that is not the one before is not known to have any entry.
    pub fn aim(&mut self, next: Option<ServerId>)
        ensures next { self.new.next ≡ next }
        ensures same { self.old.next ≡ next → self.new.fed ≡ self.old.fed }
        ensures other { ¬ (self.old.next ≡ next) → self.new.fed ≡ 0 }
    {
        if self.next != next {
            self.fed = 0;
        }
        self.next = next;
    }

    /// The next server; `None` where there is none.
    pub fn next(&self) -> Option<ServerId>
        ensures { result ≡ self.now.next }
    {
        self.next
    }

    /// How many entries the next server is known to have.
    pub fn fed(&self) -> u64
        ensures { result ≡ self.now.fed }
    {
        self.fed
    }

    /// The packet of this server with the entries that the next one is not known to have, the first 16 of them; none
    /// exactly where there is no next server, or the log has none of these. `NoMemory` comes only where there is one.
    pub fn window(&self, alloc: Global, id: ServerId, log: &Log) -> Result<Packets, NoMemory>
        ensures packets { IfOk result (λ packets. packets ≡ window_of id self.now.next self.now.fed log.now) }
        ensures err { OnErr result (0 < length (window_of id self.now.next self.now.fed log.now)) }
    {
        let mut packets = Packets::new(alloc);
        let Some(to) = self.next else {
            return Ok(packets);
        };
        if log.len() <= self.fed {
            return Ok(packets);
        }
        let first = self.fed + 1;
        let entries = log.suffix(first, WINDOW_ENTRIES)?;
        packets.push(Packet {
            from: Node::Server(id),
            to: Node::Server(to),
            message: Message::Append { first, entries },
        })?;
        Ok(packets)
    }

    /// The next server tells that its log has so many entries, and the own log has so many. What it is known to
    /// have never becomes less.
    pub fn heard(&mut self, len: u64, own: u64)
        ensures next { self.new.next ≡ self.old.next }
        ensures fed { self.new.fed ≡ max self.old.fed (min len own) }
    {
        self.fed = self.fed.max(len.min(own));
    }
}
