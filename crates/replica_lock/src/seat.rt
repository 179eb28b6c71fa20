//! The seats of a turn.

ghost use Rattle.std.specs.Prelude.{◌≡◌, ◌↔◌, ◌-◌, ℕ, IsNone, IfSome};
ghost use Rattle.replica_lock.specs.Views.{seat_view, IsSeated, fresh_seat};

use crate::Held;
use crate::standing::Standing;
use atomic_table::Seat;
use std::marker::Model;
use std::snapshot::Snapshot;

/// The most seats that a turn has.
pub const MOST_SEATS: u32 = 16;

/// The most entries that a seat gives.
pub const MOST_GIVES: u64 = (1 << 54) - 1;

/// A seat of a turn: the right of one thread to take the turn, and what it has done with it.
pub struct TurnSeat<T: Held> {
    pub(crate) seat: Seat<Option<T>, Standing<T::Name>>,
    // how many entries the seat gave
    pub(crate) gives: u64,
    // how many entries the value had when it was taken, where the seat holds the turn
    pub(crate) taken: u64,
}

impl<T: Held> Model for TurnSeat<T> {
    ghost use Rattle.replica_lock.specs.Views.{SeatView, seat_view, IsSeated};

    ghost Value = { SeatView T.Name };

    ghost view = { λ s. seat_view s.seat.table_id s.seat.me.0 };

    ghost invariant = { λ s. IsSeated s.seat.me s.gives s.taken };
}

impl<T: Held> TurnSeat<T> {
    /// How many entries the seat gave.
    pub fn gives(&self) -> u64
        ensures { result ≡ self.now.gives }
    {
        self.gives
    }

    // The table's seat in it.
    pub(crate) fn into_seat(self) -> Seat<Option<T>, Standing<T::Name>>
        ensures view { seat_view result.table_id result.me.0 ≡ self }
        ensures seated { (taken : ℕ) × IsSeated result.me self.gives taken }
    {
        let TurnSeat {
            seat,
            gives: _,
            taken: _,
        } = self;
        seat
    }

    /// Lets the seat go. What it gave stays in the history, and its turn can be closed no more.
    pub fn end(self) {
        drop(self);
    }
}

impl<T: Held> Drop for TurnSeat<T> {
    fn drop(self) {
        let TurnSeat {
            seat,
            gives: _,
            taken: _,
        } = self;
        drop(seat);
    }
}

/// The seats of a turn that are still to be taken.
pub struct Seats<T: Held> {
    pub(crate) seats: Vec<TurnSeat<T>>,
    // one of the turn's seats, as it was made
    pub(crate) one: Snapshot<TurnSeat<T>>,
}

impl<T: Held> Model for Seats<T> {
    ghost use Rattle.std.specs.Prelude.{◌≡◌, vec_len, All};
    ghost use Rattle.replica_lock.specs.Views.{SeatsView, fresh_seat};

    ghost Value = { SeatsView T.Name };

    ghost view = { λ s. record { table = s.one.value.table; name = s.one.value.name; left = vec_len s.seats } };

    ghost invariant = { λ s. All (λ seat. seat ≡ fresh_seat s.one.value.table s.one.value.name) s.seats.items };
}

impl<T: Held> Seats<T> {
    /// A seat that has done nothing yet. `None` exactly where all were taken.
    pub fn take(&mut self) -> Option<TurnSeat<T>>
        ensures some { IfSome result (λ seat. seat ≡ fresh_seat self.old.table self.old.name) }
        ensures none { IsNone result ↔ (self.old.left ≡ 0) }
        ensures left { self.new ≡ record self.old { left = self.old.left - 1 } }
    {
        self.seats.pop()
    }

    /// Lets the seats go that are still to be taken. Their turn can be closed no more.
    pub fn end(self) {
        drop(self);
    }
}

impl<T: Held> Drop for Seats<T> {
    fn drop(self) {
        let Seats { seats, one: _ } = self;
        drop(seats);
    }
}
