//! Requests of clients.

ghost use Rattle.std.specs.Prelude.{◌≡◌, ◌<◌, [], ◌∷◌, true, false, IfOk, OnOk, OnErr};
ghost use Rattle.kr_order.specs.Done.{done_of, last_of};
ghost use Rattle.kr_order.specs.History.{highest_seq};
ghost use Rattle.kr_protocol.specs.Server.{acknowledged, is_first, appended, commits_or_passes_on, enters, enters_new, after_request};
ghost use Rattle.chain_server.specs.Calls.{Does, HeedsRequest};
ghost use Rattle.chain_server.specs.Parts.{entry_of, has_seq, replies_again};

use super::Server;
use crate::Effects;
use crate::replies::{has_seq, repeated};
use kr_order::{ClientId, Command, Copied, Entry, NoMemory};
use order_state::Board;

impl<B: Board> Server<B> {
    // The entry goes to the end of the log.
    fn append(&mut self, entry: Entry) -> Result<(), NoMemory>
        requires { self.old.failed ≡ false }
        ensures grown { OnOk result (self.new ≡ record { server = appended self.old.server (entry ∷ []); failed = false }) }
        ensures same { OnOk result (acknowledged self.new.server ≡ acknowledged self.old.server) }
        ensures err { OnErr result (self.new.failed ≡ true) }
    {
        self.failed = true;
        self.log.push(entry)?;
        self.failed = false;
        Ok(())
    }

    // What is in the log is acknowledged by the tail, and passed on by another.
    fn commit_or_pass_on(&mut self) -> Result<Effects, NoMemory>
        requires { self.old.failed ≡ false }
        ensures { Does self.old (commits_or_passes_on self.old.server) result self.new }
    {
        if self.is_at_tail() {
            let len = self.log.len();
            return self.advance(len);
        }
        self.failed = true;
        let packets = self.window()?;
        self.failed = false;
        Ok(Effects::of_packets(self.alloc, packets))
    }

    // A new entry enters the log.
    fn enter(&mut self, entry: Entry) -> Result<Effects, NoMemory>
        requires { self.old.failed ≡ false }
        ensures { Does self.old (enters self.old.server entry) result self.new }
    {
        self.append(entry)?;
        self.commit_or_pass_on()
    }

    // A copy of a command that is newer than all of the client's enters the log of the first member.
    fn enter_new(
        &mut self,
        client: ClientId,
        seq: u64,
        command: &Command,
    ) -> Result<Effects, NoMemory>
        requires whole { self.old.failed ≡ false }
        requires newer { highest_seq client self.old.server.log < seq }
        ensures does { Does self.old (enters_new self.old.server (entry_of client seq command.now)) result self.new }
        ensures err { OnErr result (is_first self.old.server ≡ true) }
    {
        if !self.is_first() {
            return Ok(Effects::none(self.alloc));
        }
        self.failed = true;
        let command = command.copy(self.alloc)?;
        self.failed = false;
        self.enter(Entry {
            client,
            seq,
            command,
        })
    }

    // The client's last applied entry is replied once more, where it has this number.
    fn reply_again(&mut self, client: ClientId, seq: u64) -> Result<Effects, NoMemory>
        requires { self.old.failed ≡ false }
        ensures does { Does self.old (replies_again self.old.server seq (last_of client (done_of (acknowledged self.old.server)))) result
            self.new }
        ensures err { OnErr result (has_seq (last_of client (done_of (acknowledged self.old.server))) seq ≡ true) }
    {
        if !has_seq(&self.board, client, seq) {
            return Ok(Effects::none(self.alloc));
        }
        self.failed = true;
        let effects = match repeated(self.id, &self.board, client, seq)? {
            Some(packet) => Effects::of_packet(self.alloc, packet)?,
            None => Effects::none(self.alloc),
        };
        self.failed = false;
        Ok(effects)
    }

    // A client asks for its command of this number.
    #[tactic(auto, using(crate::proofs::RequestLemmas::request_is_new, crate::proofs::RequestLemmas::request_is_old))]
    pub(super) fn take_request(
        &mut self,
        client: ClientId,
        seq: u64,
        command: &Command,
    ) -> Result<Effects, NoMemory>
        requires { self.old.failed ≡ false }
        ensures does { Does self.old (after_request self.old.server client seq command.now) result self.new }
        ensures err { OnErr result (HeedsRequest self.old.server client seq) }
    {
        if !self.is_member() {
            return Ok(Effects::none(self.alloc));
        }
        // a number that is not greater than all of the client's in the log may be that of its last applied entry; a
        // greater one is not, and the board is not asked
        if seq <= self.log.highest_seq(client) {
            self.reply_again(client, seq)
        } else {
            self.enter_new(client, seq, command)
        }
    }
}
