//! Passes: the right of one client to add commands, and to ask.

ghost use Rattle.std.specs.Prelude.{◌≡◌, ◌↔◌, ◌-◌, length, IsNone, IfSome};
ghost use Rattle.live_service.specs.Views.{fresh_pass, named};
ghost use Rattle.live_service.specs.Own.{HasAtLeast};
ghost use Rattle.live_service.specs.Commands.{IsSeatOf};

use crate::behind::Behind;
use kr_order::ClientId;
use order_board::{BoardReader, Note, Readers};
use replica_lock::{Seats, TurnSeat};
use std::marker::Model;

/// The pass of one client, for one thread at a time. A service one of whose passes was dropped can be ended no more.
///
/// Contracts see a pass as the beginning of the history that it was told of, with its mark, which is that beginning as its
/// last command left it; how many of its commands were answered; and whether one of them found no memory.
pub struct Pass {
    pub(crate) client: ClientId,
    pub(crate) seat: TurnSeat<Behind>,
    pub(crate) reader: BoardReader,
    pub(crate) mark: Option<Note>,
    pub(crate) failed: bool,
}

impl Model for Pass {
    ghost use Rattle.live_service.specs.Views.{PassView};
    ghost use Rattle.live_service.specs.Commands.{IsPass, pass_view};

    ghost Value = { PassView };

    ghost view = { λ p. pass_view p.client p.seat p.reader p.mark p.failed };

    ghost invariant = { λ p. IsPass p.client p.seat p.reader p.mark };
}

impl Pass {
    /// The client, whose number is that of the pass, from 1.
    pub fn client(&self) -> ClientId
        ensures { result ≡ self.now.client }
    {
        self.client
    }

    /// How many entries of the history the pass was told of.
    pub fn seen(&self) -> u64
        ensures { result ≡ length self.now.known }
    {
        self.reader.seen()
    }

    /// How many of its commands were answered.
    pub fn made(&self) -> u64
        ensures { result ≡ self.now.made }
    {
        self.seat.gives()
    }

    /// How often a query of it found no copy that it could enter; it stands still at the greatest number of its type.
    pub fn shuts(&self) -> u64
        ensures { result ≡ self.now.shuts }
    {
        self.reader.shuts()
    }

    // Its seat and its reader.
    pub(crate) fn into_parts(self) -> (TurnSeat<Behind>, BoardReader)
        ensures seat { IsSeatOf self result.0 }
        ensures reader { result.1.list ≡ self.known }
        ensures copies { named result.1.copies ≡ self.service.copies }
        ensures commands { HasAtLeast self.client self.made self.known }
    {
        let Pass {
            client: _,
            seat,
            reader,
            mark,
            failed: _,
        } = self;
        drop(mark);
        (seat, reader)
    }
}

impl Drop for Pass {
    fn drop(self) {
        let Pass {
            client: _,
            seat,
            reader,
            mark,
            failed: _,
        } = self;
        seat.end();
        drop((reader, mark));
    }
}

/// The passes of a service that are still to be taken.
///
/// Contracts see them as how many they are, and of how many, and of which service.
pub struct Passes {
    pub(crate) seats: Seats<Behind>,
    pub(crate) readers: Readers,
    pub(crate) passes: u32,
    pub(crate) taken: u32,
}

impl Model for Passes {
    ghost use Rattle.std.specs.Prelude.{◌≡◌, ◌+◌};
    ghost use Rattle.live_service.specs.Views.{PassesView, named};

    ghost Value = { PassesView };

    ghost view = { λ p. record {
      passes = p.passes;
      left = p.seats.left;
      service = record { table = p.seats.table; copies = p.seats.name };
    } };

    ghost invariant = { λ p.
        (p.seats.left + p.taken ≡ p.passes) × (p.readers.left ≡ p.seats.left) × (p.seats.name ≡ named p.readers.copies) };
}

impl Passes {
    /// The next pass, which was told of nothing yet: the k-th one is that of client k. `None` exactly where all were taken.
    pub fn take(&mut self) -> Option<Pass>
        ensures some { IfSome result (λ pass. pass ≡ fresh_pass self.old) }
        ensures none { IsNone result ↔ (self.old.left ≡ 0) }
        ensures left { self.new ≡ record self.old { left = self.old.left - 1 } }
    {
        if self.taken >= self.passes {
            return None;
        }
        self.taken += 1;
        let seat = self.seats.take().unwrap();
        let reader = self.readers.take().unwrap();
        Some(Pass {
            client: ClientId(self.taken),
            seat,
            reader,
            mark: None,
            failed: false,
        })
    }
}

impl Drop for Passes {
    fn drop(self) {
        let Passes {
            seats,
            readers,
            passes: _,
            taken: _,
        } = self;
        seats.end();
        drop(readers);
    }
}
