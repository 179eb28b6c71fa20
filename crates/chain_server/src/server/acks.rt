//! Acknowledgements of the next server.

ghost use Rattle.std.specs.Prelude.{◌≡◌, ◌^◌, ◌<◌, ◌≤◌, ◌⊎◌, length, min, true, false, OnErr};
ghost use Rattle.kr_protocol.specs.Server.{ack, sends, feeds, acknowledges, acknowledges_and_feeds, tells_joined, hears, after_ack};
ghost use Rattle.chain_server.specs.Calls.{Does, AddsTo, IsAckedMore, IsFedMore, has_caught_up, HeedsAck};

use super::Server;
use super::viewed::is_server;
use crate::Effects;
use kr_order::{Message, NoMemory, Node, Packet, ServerId};
use order_state::Board;

impl<B: Board> Server<B> {
    // The server before learns how many entries are acknowledged.
    fn tell_before(&mut self, mut effects: Effects) -> Result<Effects, NoMemory>
        requires { self.old.failed ≡ false }
        ensures { AddsTo effects self.old (sends self.old.server (ack self.old.server)) result self.new }
    {
        self.failed = true;
        let packets = self.ack()?;
        effects.packets.append(packets)?;
        self.failed = false;
        Ok(effects)
    }

    // So many entries are acknowledged to the next server.
    fn acknowledge(&mut self, upto: u64) -> Result<Effects, NoMemory>
        requires whole { self.old.failed ≡ false }
        requires high { upto ≤ length self.old.server.log }
        requires few { upto ≤ 2 ^ 58 }
        ensures does { Does self.old (acknowledges self.old.server upto) result self.new }
        ensures err { OnErr result (self.old.server.done < upto) }
    {
        if upto <= self.board.count() {
            return Ok(Effects::none(self.alloc));
        }
        let effects = self.advance(upto)?;
        self.tell_before(effects)
    }

    // The next server has so many entries, and is sent more where this is news.
    fn feed(&mut self, len: u64, mut effects: Effects) -> Result<Effects, NoMemory>
        requires { self.old.failed ≡ false }
        ensures adds { AddsTo effects self.old (feeds self.old.server (min len (length self.old.server.log))) result self.new }
        ensures err { OnErr result (IsFedMore self.old.server len) }
    {
        let own = self.log.len();
        let upto = len.min(own);
        let is_news = self.link.fed() < upto && upto < own;
        self.link.heard(len, own);
        if !is_news {
            return Ok(effects);
        }
        self.failed = true;
        let packets = self.window()?;
        effects.packets.append(packets)?;
        self.failed = false;
        Ok(effects)
    }

    // So many entries are acknowledged to the next server, and it has so many.
    fn acknowledge_and_feed(&mut self, done: u64, len: u64) -> Result<Effects, NoMemory>
        requires { self.old.failed ≡ false }
        ensures does { Does self.old (acknowledges_and_feeds self.old.server done len) result self.new }
        ensures err { OnErr result (IsAckedMore self.old.server done ⊎ IsFedMore self.old.server len) }
    {
        let upto = done.min(self.log.len());
        let effects = self.acknowledge(upto)?;
        self.feed(len, effects)
    }

    // Whether that server, which has so many entries, is the joiner, and has as many as it has to have.
    fn has_caught_up(&self, from: ServerId, len: u64) -> bool
        ensures { result ≡ has_caught_up self.now.server from len }
    {
        is_server(self.behind(), from) && self.need <= len
    }

    // The manager is told behind this that the joiner has caught up, where that is so.
    fn tell_joined(
        &mut self,
        from: ServerId,
        len: u64,
        mut effects: Effects,
    ) -> Result<Effects, NoMemory>
        requires { self.old.failed ≡ false }
        ensures adds { AddsTo effects self.old (tells_joined self.old.server from len) result self.new }
        ensures err { OnErr result (has_caught_up self.old.server from len ≡ true) }
    {
        if !self.has_caught_up(from, len) {
            return Ok(effects);
        }
        self.failed = true;
        effects.packets.push(Packet {
            from: Node::Server(self.id),
            to: Node::Manager,
            message: Message::Joined { joiner: from },
        })?;
        self.failed = false;
        Ok(effects)
    }

    // What the next server says of itself: so many entries are acknowledged to it, and it has so many.
    fn hear(&mut self, from: ServerId, done: u64, len: u64) -> Result<Effects, NoMemory>
        requires { self.old.failed ≡ false }
        ensures does { Does self.old (hears self.old.server from done len) result self.new }
        ensures err { OnErr result
            ((IsAckedMore self.old.server done ⊎ IsFedMore self.old.server len) ⊎ (has_caught_up self.old.server from len ≡ true)) }
    {
        let effects = self.acknowledge_and_feed(done, len)?;
        self.tell_joined(from, len, effects)
    }

    // The next server tells how many entries are acknowledged to it, and how many its log has.
    pub(super) fn take_ack(
        &mut self,
        from: ServerId,
        done: u64,
        len: u64,
    ) -> Result<Effects, NoMemory>
        requires { self.old.failed ≡ false }
        ensures does { Does self.old (after_ack self.old.server from done len) result self.new }
        ensures err { OnErr result (HeedsAck self.old.server from done len) }
    {
        if !is_server(self.link.next(), from) {
            return Ok(Effects::none(self.alloc));
        }
        self.hear(from, done, len)
    }
}
