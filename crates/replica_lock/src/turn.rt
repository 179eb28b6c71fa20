//! The turn: how it is made, taken, given back and ended.

ghost use Rattle.std.specs.Prelude.{◌≡◌, ◌<◌, ◌≤◌, ◌+◌, ◌^◌, Some, None, IfOk, IfErr, OnErr, IfSome, IsSomeAnd, All, length};
ghost use Rattle.replica_lock.specs.Views.{IsIdle, IsGivable, parts_of_all, gives_of_all};

use crate::making::{TurnTable, lay, seat_all};
use crate::rule::{Count, Give, HISTORY, Look, Merge, TURN, Take, VALUE};
use crate::{Held, MOST_SEATS, Seats, TurnSeat};
use std::alloc::Global;
use std::fmt::Debug;
use std::marker::Model;
use std::sync::Wait;
use std::thread;
use thiserror::Error;

/// Another seat holds the turn.
#[derive(Clone, Copy, Debug, PartialEq, Eq, Error)]
#[error("another seat holds the turn")]
pub struct Busy;

/// Why a turn is not made.
#[derive(Debug, Drop, Error)]
#[error_bound(T: Debug + Drop)]
pub enum TurnStop<T> {
    /// There is no memory for it. The value comes back.
    #[error("no memory for a turn")]
    NoMemory { value: T },
}

/// A value that one seat at a time takes and gives back, and the history word, which counts its entries.
///
/// Contracts see a turn as which one it is, the name of its value, and how many seats it was made with. Threads share it
/// by reference, each with a seat of its own.
#[derive(Drop)]
pub struct Turn<T: Held> {
    table: TurnTable<T>,
}

impl<T: Held> Model for Turn<T> {
    ghost use Rattle.std.specs.Prelude.{◌≡◌, ◌<◌};
    ghost use Rattle.replica_lock.specs.Views.{TurnView};

    ghost Value = { TurnView T.Name };

    ghost view = { λ t. record {
      table = t.table.shared.table_id;
      name = T.name_of t.table.shared.key.value.value;
      seats = t.table.shared.key.seats;
    } };

    ghost invariant = { λ t.
        (t.table.shared.table_id.words ≡ 2)
        × (t.table.shared.table_id.slots ≡ 1)
        × (0 < t.table.shared.key.seats) };
}

impl<T: Held> Turn<T> {
    /// A turn with this value, which has no entries yet, and its seats, 16 at the most. `NoMemory` where there is none for
    /// the table and the seats; it hands the value back. No later call of the turn or of its seats takes memory.
    pub fn new(alloc: Global, value: T, seats: u32) -> Result<(Turn<T>, Seats<T>), TurnStop<T>>
        requires seats { (0 < seats) × (seats ≤ MOST_SEATS) }
        requires count { T.count_of value ≡ 0 }
        ensures turn { IfOk result (λ made. (made.0.name ≡ T.name_of value) × (made.0.seats ≡ seats)) }
        ensures seats { IfOk result (λ made. made.1 ≡ record {
          table = made.0.table;
          name = made.0.name;
          left = seats;
        }) }
        ensures err { IfErr result (λ stop. stop ≡ TurnStop.NoMemory value) }
    {
        let Ok(room) = Vec::with_capacity(alloc, seats as usize) else {
            return Err(TurnStop::NoMemory { value });
        };
        let (table, first) = lay(alloc, value, seats)?;
        let seats = seat_all(&table, first, room, seats);
        Ok((Turn { table }, seats))
    }

    /// Takes the value out, by one exchange of the turn word. `Busy` exactly where that exchange found the turn taken: then
    /// the seat's empty finds rise by one, and nothing else of it changes.
    pub fn try_take(&self, seat: &mut TurnSeat<T>) -> Result<T, Busy>
        requires idle { IsIdle self.now.table seat.old }
        ensures name { IfOk result (λ value. T.name_of value ≡ seat.old.name) }
        ensures count { IfOk result (λ value. T.count_of value < 2 ^ 58) }
        ensures ok { IfOk result (λ value. seat.new ≡ record seat.old {
          seen = T.count_of value;
          holds = Some (T.count_of value);
        }) }
        ensures busy { OnErr result (seat.new ≡ record seat.old { empties = seat.old.empties + 1 }) }
    {
        let found = self.table.shared.swap::<Take>(&mut seat.seat, TURN, 1);
        if found != 0 {
            return Err(Busy);
        }
        let value = self.table.shared.exchange(&mut seat.seat, VALUE, None);
        let Some(value) = value else { unreachable!() };
        seat.taken = value.count();
        Ok(value)
    }

    /// Takes the value out, and waits while the turn is taken: it tries again and again, each time as `try_take` does. It
    /// may wait for ever, and who waits longest need not be next.
    pub fn take<R: Wait>(&self, rt: &R, seat: &mut TurnSeat<T>) -> T
        requires idle { IsIdle self.now.table seat.old }
        ensures name { T.name_of result ≡ seat.old.name }
        ensures count { T.count_of result < 2 ^ 58 }
        ensures seat { seat.new ≡ record seat.old {
          empties = seat.new.empties;
          seen = T.count_of result;
          holds = Some (T.count_of result);
        } }
        ensures empties { seat.old.empties ≤ seat.new.empties }
    {
        for _ in rt.forever() {
            if let Ok(value) = self.try_take(seat) {
                return value;
            }
            thread::yield_now();
        }
        unreachable!()
    }

    /// Gives the value back, with as many entries as it was taken with, or one more. The seat's gives rise by one exactly
    /// where it is one more. It does not wait.
    pub fn give(&self, seat: &mut TurnSeat<T>, value: T)
        requires turn { seat.old.table ≡ self.now.table }
        requires name { T.name_of value ≡ seat.old.name }
        requires count { IsSomeAnd seat.old.holds (λ count. IsGivable count seat.old.gives (T.count_of value)) }
        ensures seat { seat.new ≡ record seat.old {
          gives = seat.new.gives;
          seen = T.count_of value;
          holds = None;
        } }
        ensures gives { IfSome seat.old.holds (λ count. seat.new.gives + count ≡ seat.old.gives + T.count_of value) }
    {
        if value.count() != seat.taken {
            self.table
                .shared
                .fetch_add::<Count>(&mut seat.seat, HISTORY, 1);
            seat.gives += 1;
        }
        let empty = self
            .table
            .shared
            .exchange(&mut seat.seat, VALUE, Some(value));
        let None = empty else { unreachable!() };
        self.table.shared.swap::<Give>(&mut seat.seat, TURN, 0);
    }

    /// How many entries the history has, by one load of the history word: no fewer than the seat had seen, nor than it gave.
    /// It does not wait.
    pub fn counted(&self, seat: &mut TurnSeat<T>) -> u64
        requires { seat.old.table ≡ self.now.table }
        ensures seat { seat.new ≡ record seat.old { seen = result } }
        ensures seen { seat.old.seen ≤ result }
        ensures gives { seat.old.gives ≤ result }
        ensures holds { IfSome seat.old.holds (λ count. result ≡ count) }
        ensures small { result < 2 ^ 58 }
    {
        self.table.shared.load::<Look>(&mut seat.seat, HISTORY)
    }

    /// Joins a seat into another, which then stands for what both stood for, and has done what both did.
    pub fn join(&self, seat: &mut TurnSeat<T>, other: TurnSeat<T>)
        requires seat { IsIdle self.now.table seat.old }
        requires other { IsIdle self.now.table other }
        ensures seat { seat.new ≡ record seat.old {
          parts = seat.old.parts + other.parts;
          gives = seat.old.gives + other.gives;
          empties = seat.old.empties + other.empties;
          seen = seat.new.seen;
        } }
        ensures seen { (seat.old.seen ≤ seat.new.seen) × (other.seen ≤ seat.new.seen) }
    {
        let gives = other.gives();
        let shared = &self.table.shared;
        shared.join_seat::<Merge<T>>(&mut seat.seat, other.into_seat());
        // what both gave is no more than the history, so it can be added up
        shared.load::<Look>(&mut seat.seat, HISTORY);
        seat.gives += gives;
    }

    // What lies at home at the end.
    fn at_home(self, seat: TurnSeat<T>) -> Option<T>
        requires idle { IsIdle self.table seat }
        requires whole { seat.parts ≡ self.seats }
        ensures { IsSomeAnd result (λ value. (T.name_of value ≡ self.name) × (T.count_of value ≡ seat.gives)) }
    {
        let Turn { table } = self;
        let mut closed = table.close_with(seat.into_seat());
        let value = closed.take(VALUE);
        closed.free();
        value
    }

    /// Ends the turn with the one seat that all its seats were joined into. The value comes back, with as many entries as
    /// all seats gave.
    pub fn close_whole(self, seat: TurnSeat<T>) -> T
        requires idle { IsIdle self.table seat }
        requires whole { seat.parts ≡ self.seats }
        ensures name { T.name_of result ≡ self.name }
        ensures count { T.count_of result ≡ seat.gives }
    {
        self.at_home(seat).unwrap()
    }

    // All these seats, joined into one.
    fn join_all(&self, mut seats: Vec<TurnSeat<T>>) -> TurnSeat<T>
        requires some { 0 < length seats.items }
        requires idle { All (IsIdle self.now.table) seats.items }
        ensures idle { IsIdle self.now.table result }
        ensures parts { result.parts ≡ parts_of_all seats.items }
        ensures gives { result.gives ≡ gives_of_all seats.items }
    {
        let mut whole = seats.pop().unwrap();
        while let Some(seat) = seats.pop() {
            self.join(&mut whole, seat);
        }
        whole
    }

    /// Ends the turn with all its seats. The value comes back, with as many entries as the seats gave together.
    pub fn close(self, seats: Vec<TurnSeat<T>>) -> T
        requires idle { All (IsIdle self.table) seats.items }
        requires whole { parts_of_all seats.items ≡ self.seats }
        ensures name { T.name_of result ≡ self.name }
        ensures count { T.count_of result ≡ gives_of_all seats.items }
    {
        let whole = self.join_all(seats);
        self.close_whole(whole)
    }
}
