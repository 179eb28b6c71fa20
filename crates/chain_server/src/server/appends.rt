//! Entries that the server before passes on.

ghost use Rattle.std.specs.Prelude.{◌≡◌, ◌++◌, Some, length, true, false, IfOk, OnOk, OnErr};
ghost use Rattle.kr_protocol.specs.Server.{acknowledged, appended, missing, is_server, prev, ack_to, sends, advances_at_tail, after_append};
ghost use Rattle.chain_server.specs.Calls.{Does, AddsTo};
ghost use Rattle.chain_server.specs.Parts.{passed_on_by};

use super::Server;
use super::viewed::is_server;
use crate::Effects;
use chain_link::receive;
use kr_order::{Entries, NoMemory, Packets, ServerId};
use order_state::Board;

impl<B: Board> Server<B> {
    // Those entries that the log lacks go to its end. How many these were.
    fn grow(&mut self, first: u64, entries: &Entries) -> Result<u64, NoMemory>
        requires { self.old.failed ≡ false }
        ensures grown { OnOk result
            (self.new ≡ record { server = appended self.old.server (missing self.old.server.log first entries.now); failed = false }) }
        ensures same { OnOk result (acknowledged self.new.server ≡ acknowledged self.old.server) }
        ensures count { IfOk result (λ count. count ≡ length (missing self.old.server.log first entries.now)) }
        ensures err { OnErr result (self.new.failed ≡ true) }
    {
        self.failed = true;
        let taken = receive(&mut self.log, first, entries)?;
        self.failed = false;
        Ok(taken)
    }

    // What is in the log is acknowledged where the server is the tail.
    pub(super) fn advance_at_tail(&mut self) -> Result<Effects, NoMemory>
        requires { self.old.failed ≡ false }
        ensures { Does self.old (advances_at_tail self.old.server) result self.new }
    {
        if !self.is_at_tail() {
            return Ok(Effects::none(self.alloc));
        }
        let len = self.log.len();
        self.advance(len)
    }

    // What is passed on once so many entries were taken: nothing where none were.
    fn passed_on(&self, taken: u64) -> Result<Packets, NoMemory>
        ensures { IfOk result (λ packets. packets ≡ passed_on_by self.now.server taken) }
    {
        if taken == 0 {
            Ok(Packets::new(self.alloc))
        } else {
            self.window()
        }
    }

    // What is sent when so many entries were taken from the server before.
    fn pass_on(
        &mut self,
        from: ServerId,
        taken: u64,
        mut effects: Effects,
    ) -> Result<Effects, NoMemory>
        requires { self.old.failed ≡ false }
        ensures { AddsTo effects self.old
            (sends self.old.server (ack_to self.old.server (Some from) ++ passed_on_by self.old.server taken)) result self.new }
    {
        self.failed = true;
        let mut more = self.ack_to(Some(from))?;
        let passed = self.passed_on(taken)?;
        more.append(passed)?;
        effects.packets.append(more)?;
        self.failed = false;
        Ok(effects)
    }

    // The server before passes entries on.
    pub(super) fn take_append(
        &mut self,
        from: ServerId,
        first: u64,
        entries: &Entries,
    ) -> Result<Effects, NoMemory>
        requires { self.old.failed ≡ false }
        ensures does { Does self.old (after_append self.old.server from first entries.now) result self.new }
        ensures err { OnErr result (is_server (prev self.old.server) from ≡ true) }
    {
        if !is_server(self.prev(), from) {
            return Ok(Effects::none(self.alloc));
        }
        let taken = self.grow(first, entries)?;
        let effects = self.advance_at_tail()?;
        self.pass_on(from, taken, effects)
    }
}
