//! What a server sends to the servers beside it, and what it does when its time has come.

ghost use Rattle.std.specs.Prelude.{◌≡◌, ◌<◌, length, IfOk, OnErr};
ghost use Rattle.kr_protocol.specs.Server.{window, ack_to, ack, server_ticks};
ghost use Rattle.chain_server.specs.Calls.{Ticks};

use super::Server;
use crate::Effects;
use kr_order::{Message, NoMemory, Node, Packet, Packets, ServerId};
use order_state::Board;

impl<B: Board> Server<B> {
    // What is passed on to the next server.
    pub(super) fn window(&self) -> Result<Packets, NoMemory>
        ensures packets { IfOk result (λ packets. packets ≡ window self.now.server) }
        ensures err { OnErr result (0 < length (window self.now.server)) }
    {
        self.link.window(self.alloc, self.id, &self.log)
    }

    // How many entries are acknowledged, and how many the log has, for this server, if there is one.
    pub(super) fn ack_to(&self, to: Option<ServerId>) -> Result<Packets, NoMemory>
        ensures packets { IfOk result (λ packets. packets ≡ ack_to self.now.server to) }
        ensures err { OnErr result (0 < length (ack_to self.now.server to)) }
    {
        let mut packets = Packets::new(self.alloc);
        let Some(to) = to else {
            return Ok(packets);
        };
        let done = self.board.count();
        let len = self.log.len();
        packets.push(Packet {
            from: Node::Server(self.id),
            to: Node::Server(to),
            message: Message::Ack { done, len },
        })?;
        Ok(packets)
    }

    // The same for the server before.
    pub(super) fn ack(&self) -> Result<Packets, NoMemory>
        ensures packets { IfOk result (λ packets. packets ≡ ack self.now.server) }
        ensures err { OnErr result (0 < length (ack self.now.server)) }
    {
        self.ack_to(self.prev())
    }

    // What the server sends when its time has come.
    pub(super) fn ticks(&self) -> Result<Packets, NoMemory>
        ensures packets { IfOk result (λ packets. packets ≡ (server_ticks self.now.server).sent) }
        ensures err { OnErr result (0 < length (server_ticks self.now.server).sent) }
    {
        let mut packets = self.ack()?;
        let window = self.window()?;
        if window.len() == 0 {
            return Ok(packets);
        }
        packets.append(window)?;
        Ok(packets)
    }

    /// The server's time has come: it tells the server before it what it has, and passes on to the next one what
    /// that may lack. The server itself stays as it is, unless it fails. `NoMemory` comes only where it has something to
    /// tell, or had failed.
    pub fn tick(&mut self) -> Result<Effects, NoMemory>
        ensures { Ticks self.old result self.new }
    {
        if self.failed {
            return Err(NoMemory);
        }
        self.failed = true;
        let packets = self.ticks()?;
        self.failed = false;
        Ok(Effects::of_packets(self.alloc, packets))
    }
}
