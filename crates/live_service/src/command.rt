//! Commands: how a pass takes the turn, adds an entry and gives the turn back.

ghost use Rattle.std.specs.Prelude.{◌≡◌, ◌<◌, ◌≤◌, ◌+◌, ◌^◌, Some, None, false, length, IfOk, OnOk, OnErr, IfErr, MatchBool};
ghost use Rattle.kr_order.specs.Prefix.{IsPrefix};
ghost use Rattle.replica_lock.specs.Views.{IsIdle};
ghost use Rattle.live_service.specs.Views.{named};
ghost use Rattle.live_service.specs.Commands.{Commands, Fails, Tries, IsHeld, Adds, LetsGo, next_of};

use crate::behind::Behind;
use crate::{Pass, Service};
use kr_order::{Command, Entry, NoMemory, Placed};
use kr_text::{Gate, OpenGate, Point};
use order_board::{BoardReader, Note};
use replica_lock::{Busy, Held, MOST_GIVES, TurnSeat};
use std::sync::Wait;
use std::thread;
use thiserror::Error;

/// Why a command that was tried has no answer.
#[derive(Debug, Drop, Error)]
pub enum TryStop {
    /// Another pass holds the turn. The command comes back.
    #[error("another pass holds the turn")]
    Busy(Command),
    /// There was no memory for the entry, now or at an earlier command.
    #[error("out of memory")]
    NoMemory,
}

impl From<NoMemory> for TryStop {
    ghost use Rattle.std.specs.Prelude.{◌≡◌};
    ghost use Rattle.live_service.specs.declared.command.TryStop.TheVariants.{NoMemory as StopNoMemory};

    ghost from_gives = { λ _ stop. stop ≡ StopNoMemory };

    fn from(_: NoMemory) -> Self {
        TryStop::NoMemory
    }
}

// Lets the reader learn the history; whether the history has all that the reader knows. Then both are the same.
#[tactic(auto, using(crate::proofs::KnownLemmas::whole_front))]
pub(crate) fn is_all(behind: &Behind, reader: &mut BoardReader) -> bool
    requires { behind.now.copies ≡ reader.old.copies }
    ensures own { IsPrefix reader.old.list reader.new.list }
    ensures all { MatchBool result (reader.new.list ≡ behind.now.list) (length behind.now.list < length reader.new.list) }
    ensures rest { reader.new ≡ record reader.old { list = reader.new.list } }
{
    reader.learn(&behind.tell());
    reader.seen() <= behind.count()
}

impl Service {
    // Takes the turn, and once more as long as the reader knows of more than the history.
    fn hold<R: Wait>(&self, rt: &R, seat: &mut TurnSeat<Behind>, reader: &mut BoardReader) -> Behind
        requires idle { IsIdle self.now.id.table seat.old }
        requires name { seat.old.name ≡ named reader.old.copies }
        ensures held { IsHeld self.now.id.table seat.new reader.new result }
        ensures seat { seat.new ≡ record seat.old { empties = seat.new.empties; seen = seat.new.seen; holds = seat.new.holds } }
        ensures reader { reader.new ≡ record reader.old { list = reader.new.list } }
        ensures own { IsPrefix reader.old.list reader.new.list }
        ensures empties { seat.old.empties ≤ seat.new.empties }
    {
        for _ in rt.forever() {
            let behind = self.turn.take(rt, seat);
            if is_all(&behind, reader) {
                return behind;
            }
            self.turn.give(seat, behind);
            thread::yield_now();
        }
        unreachable!()
    }

    // Keeps the turn that was taken with this history, or takes it again where the reader knows of more.
    fn hold_on<R: Wait>(
        &self,
        rt: &R,
        seat: &mut TurnSeat<Behind>,
        reader: &mut BoardReader,
        behind: Behind,
    ) -> Behind
        requires table { seat.old.table ≡ self.now.id.table }
        requires name { seat.old.name ≡ named reader.old.copies }
        requires copies { behind.copies ≡ reader.old.copies }
        requires holds { seat.old.holds ≡ Some (length behind.list) }
        requires count { length behind.list < 2 ^ 58 }
        ensures held { IsHeld self.now.id.table seat.new reader.new result }
        ensures seat { seat.new ≡ record seat.old { empties = seat.new.empties; seen = seat.new.seen; holds = seat.new.holds } }
        ensures reader { reader.new ≡ record reader.old { list = reader.new.list } }
        ensures own { IsPrefix reader.old.list reader.new.list }
        ensures empties { seat.old.empties ≤ seat.new.empties }
    {
        if is_all(&behind, reader) {
            return behind;
        }
        self.turn.give(seat, behind);
        self.hold(rt, seat, reader)
    }

    // Puts the entry behind the history that the seat holds, tells the reader, and gives the turn back.
    fn add<R: Wait>(
        &self,
        rt: &R,
        seat: &mut TurnSeat<Behind>,
        reader: &mut BoardReader,
        mut behind: Behind,
        entry: Entry,
    ) -> (Result<Placed, NoMemory>, Note)
        requires held { IsHeld self.now.id.table seat.old reader.old behind }
        requires few { seat.old.gives < MOST_GIVES }
        ensures ok { IfOk result.0 (λ placed. Adds seat.old seat.new reader.old reader.new entry placed result.1) }
        ensures err { OnErr result.0 (LetsGo seat.old seat.new reader.old reader.new) }
    {
        let placed = behind.add(rt, entry);
        let note = behind.tell();
        reader.learn(&note);
        self.turn.give(seat, behind);
        (placed, note)
    }

    // Makes the command, and comes to the gate while it has the turn.
    fn make<R: Wait, G: Gate>(
        &self,
        rt: &R,
        pass: &mut Pass,
        call: u32,
        command: Command,
        gate: &G,
    ) -> Result<Placed, NoMemory>
        requires service { pass.old.service ≡ self.now.id }
        requires few { pass.old.made < MOST_GIVES }
        ensures ok { IfOk result (λ placed. Commands pass.old pass.new command placed) }
        ensures err { OnErr result (Fails pass.old pass.new) }
        ensures failed { OnOk result (pass.old.failed ≡ false) }
    {
        if pass.failed {
            return Err(NoMemory);
        }
        let entry = pass.entry(command);
        let behind = self.hold(rt, &mut pass.seat, &mut pass.reader);
        gate.at(pass.client, call, Point::Holding);
        let (placed, note) = self.add(rt, &mut pass.seat, &mut pass.reader, behind, entry);
        match placed {
            Ok(placed) => {
                pass.mark = Some(note);
                Ok(placed)
            }
            Err(NoMemory) => {
                pass.failed = true;
                Err(NoMemory)
            }
        }
    }

    /// Puts the pass's next command behind the history, and tells the pass of both: the history before it begins with all
    /// that the pass was told of and met. It waits for the turn, and for queries that are still in an older copy.
    ///
    /// After `NoMemory`, which comes where there is none for the entry, the history is as before, the pass was told of it, and
    /// each later command of this pass answers `NoMemory`.
    pub fn command<R: Wait>(
        &self,
        rt: &R,
        pass: &mut Pass,
        command: Command,
    ) -> Result<Placed, NoMemory>
        requires service { pass.old.service ≡ self.now.id }
        requires few { pass.old.made < MOST_GIVES }
        ensures ok { IfOk result (λ placed. Commands pass.old pass.new command placed) }
        ensures err { OnErr result (Fails pass.old pass.new) }
        ensures failed { OnOk result (pass.old.failed ≡ false) }
    {
        self.make(rt, pass, 0, command, &OpenGate)
    }

    /// As `command`, by way of a gate: it is told at `Before`, at `Holding` while the call has the turn, and at `After`. The
    /// call has this number among those of the pass's client.
    pub fn command_at<R: Wait, G: Gate>(
        &self,
        rt: &R,
        pass: &mut Pass,
        call: u32,
        command: Command,
        gate: &G,
    ) -> Result<Placed, NoMemory>
        requires service { pass.old.service ≡ self.now.id }
        requires few { pass.old.made < MOST_GIVES }
        ensures ok { IfOk result (λ placed. Commands pass.old pass.new command placed) }
        ensures err { OnErr result (Fails pass.old pass.new) }
        ensures failed { OnOk result (pass.old.failed ≡ false) }
    {
        gate.at(pass.client(), call, Point::Before);
        let placed = self.make(rt, pass, call, command, gate);
        gate.at(pass.client(), call, Point::After);
        placed
    }

    /// As `command`, but that it does not wait for the turn where another pass holds it: `Busy` only where the pass's empty
    /// finds rose by one in this call, and nothing else of the pass then changes; the command comes back.
    pub fn try_command<R: Wait>(
        &self,
        rt: &R,
        pass: &mut Pass,
        command: Command,
    ) -> Result<Placed, TryStop>
        requires service { pass.old.service ≡ self.now.id }
        requires few { pass.old.made < MOST_GIVES }
        ensures { Tries pass.old pass.new command result }
    {
        let behind = match self.turn.try_take(&mut pass.seat) {
            Ok(behind) => behind,
            Err(Busy) => return Err(TryStop::Busy(command)),
        };
        if pass.failed {
            self.turn.give(&mut pass.seat, behind);
            return Err(TryStop::NoMemory);
        }
        let seq = pass.seat.gives() + 1;
        let entry = Entry {
            client: pass.client,
            seq,
            command,
        };
        let behind = self.hold_on(rt, &mut pass.seat, &mut pass.reader, behind);
        let (placed, note) = self.add(rt, &mut pass.seat, &mut pass.reader, behind, entry);
        match placed {
            Ok(placed) => {
                pass.mark = Some(note);
                Ok(placed)
            }
            Err(NoMemory) => {
                pass.failed = true;
                Err(TryStop::NoMemory)
            }
        }
    }
}

impl Pass {
    // The entry of its next command.
    fn entry(&self, command: Command) -> Entry
        requires { self.now.made < MOST_GIVES }
        ensures { result ≡ next_of self.now command }
    {
        Entry {
            client: self.client,
            seq: self.made() + 1,
            command,
        }
    }
}
