//! Queries of clients, and the work on those that wait.

ghost use Rattle.std.specs.Prelude.{◌≡◌, ◌<◌, length, false, OnErr};
ghost use Rattle.kr_protocol.specs.Server.{waits, after_ask, most_waiting};
ghost use Rattle.chain_server.specs.Calls.{Does, HeedsAsk, Works, query_of};
ghost use Rattle.chain_server.specs.Parts.{tells_view};

use super::Server;
use crate::Effects;
use crate::told::{is_for_tail, referrals, work_packets};
use kr_order::{Asked, ClientId, Listed, NoMemory, Query};
use order_state::Board;
use std::thread::Threads;

// So many queries wait at the most.
const MOST_WAITING: usize = 64;

impl<B: Board> Server<B> {
    // The query joins the end of those that wait, where there is room.
    fn wait(
        &mut self,
        client: ClientId,
        q: u64,
        part: u8,
        pairs: &Asked,
    ) -> Result<Effects, NoMemory>
        requires { self.old.failed ≡ false }
        ensures does { Does self.old (waits self.old.server (query_of client q part pairs.now)) result self.new }
        ensures err { OnErr result (length self.old.server.waiting < most_waiting) }
    {
        if self.waiting.len() >= MOST_WAITING {
            return Ok(Effects::none(self.alloc));
        }
        self.failed = true;
        let pairs = pairs.copy()?;
        self.waiting.push(Query {
            client,
            q,
            part,
            pairs,
        })?;
        self.failed = false;
        Ok(Effects::none(self.alloc))
    }

    // The client is told of the view that the server has adopted, if it has one.
    fn refer_to_view(&mut self, client: ClientId, q: u64, part: u8) -> Result<Effects, NoMemory>
        requires { self.old.failed ≡ false }
        ensures { Does self.old (tells_view self.old.server client q part) result self.new }
    {
        self.failed = true;
        let packets = referrals(self.alloc, self.id, &self.view, client, q, part)?;
        self.failed = false;
        Ok(Effects::of_packets(self.alloc, packets))
    }

    // A client asks about pairs of events.
    #[tactic(auto, using(crate::proofs::Asked::stranger_refers, crate::proofs::Asked::other_refers, crate::proofs::Asked::member_waits))]
    pub(super) fn take_ask(
        &mut self,
        client: ClientId,
        q: u64,
        part: u8,
        pairs: &Asked,
    ) -> Result<Effects, NoMemory>
        requires { self.old.failed ≡ false }
        ensures does { Does self.old (after_ask self.old.server (query_of client q part pairs.now)) result self.new }
        ensures err { OnErr result (HeedsAsk self.old.server part) }
    {
        if self.view.is_none() {
            return Ok(Effects::none(self.alloc));
        }
        if !self.is_member() || is_for_tail(self.is_at_tail(), part) {
            self.refer_to_view(client, q, part)
        } else {
            self.wait(client, q, part, pairs)
        }
    }

    /// Tells every waiting query something, the oldest first: the answers from the acknowledged prefix, or, where only
    /// the tail answers it and the server is another, which view it has adopted. Then none waits. The packets do not
    /// depend on the number of workers. `NoMemory` comes only where a query waits, or the server had failed.
    pub fn work<R: Threads + Sync>(&mut self, rt: &R, workers: u32) -> Result<Effects, NoMemory>
        ensures { Works self.old result self.new }
    {
        if self.failed {
            return Err(NoMemory);
        }
        self.failed = true;
        let packets = work_packets(
            rt,
            self.alloc,
            self.id,
            &self.view,
            &self.board,
            self.waiting.as_slice(),
            workers,
        )?;
        self.waiting = Listed::new(self.alloc);
        self.failed = false;
        Ok(Effects::of_packets(self.alloc, packets))
    }
}
