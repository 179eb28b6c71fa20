//! Each call of a turn, by one thread and by four. `Tally`, `add` and `tally_by` are an example for who uses one.

ghost use Rattle.std.specs.Prelude.{◌≡◌, ◌≤◌, ◌+◌, ◌*◌, ◌<◌, IfOk, All, length, true};
ghost use Rattle.replica_lock.specs.Views.{IsIdle, fresh_seat};

use super::*;
use std::alloc::{AllocError, Global};
use std::sync::Wait;
use std::test::Fail;
use std::thread;
use std::thread::Threads;

// A value behind a turn: how many entries it has.
#[derive(Debug, Drop)]
struct Tally {
    entries: u64,
}

impl Held for Tally {
    type Name = ();

    ghost name_of = { λ _. tt };

    ghost count_of = { λ tally. tally.entries };

    ghost nowhere = { tt };

    fn count(&self) -> u64 {
        self.entries
    }
}

// Adds so many entries, each in a turn of its own.
fn add<R: Wait>(rt: &R, turn: &Turn<Tally>, seat: &mut TurnSeat<Tally>, times: u64)
    requires idle { IsIdle turn.now.table seat.old }
    requires room { seat.old.gives + times ≤ MOST_GIVES }
    ensures idle { IsIdle turn.now.table seat.new }
    ensures parts { seat.new.parts ≡ seat.old.parts }
    ensures gives { seat.new.gives ≡ seat.old.gives + times }
{
    for _ in 0..times {
        let mut tally = turn.take(rt, seat);
        tally.entries += 1;
        turn.give(seat, tally);
    }
}

// All seats, in a row.
fn row_of(alloc: Global, mut seats: Seats<Tally>) -> Result<Vec<TurnSeat<Tally>>, AllocError>
    ensures fresh { IfOk result (λ row. All (λ seat. seat ≡ fresh_seat seats.table seats.name) row.items) }
    ensures all { IfOk result (λ row. length row.items ≡ seats.left) }
{
    let mut row = Vec::new(alloc);
    while let Some(seat) = seats.take() {
        row.push(seat)?;
    }
    Ok(row)
}

// Each seat in the row adds so many entries, in a thread of its own.
fn add_by_all<R: Threads + Wait + Sync>(
    rt: &R,
    turn: &Turn<Tally>,
    row: &mut Vec<TurnSeat<Tally>>,
    times: u64,
)
    requires times { times ≤ MOST_GIVES }
    requires fresh { All (λ seat. seat ≡ fresh_seat turn.now.table turn.now.name) row.old.items }
    ensures idle { All (IsIdle turn.now.table) row.new.items }
    ensures parts { All (λ seat. seat.parts ≡ 1) row.new.items }
    ensures gives { All (λ seat. seat.gives ≡ times) row.new.items }
    ensures all { length row.new.items ≡ length row.old.items }
{
    thread::for_each_mut(
        rt,
        row.as_mut_slice(),
        4,
        &|_, seat| add(rt, turn, seat, times),
    );
}

// Threads add to a tally, each by a seat of its own. No entry is lost, and none counts twice: how many entries it has in
// the end, and whether each seat gave its own.
fn tally_by<R: Threads + Wait + Sync>(
    rt: &R,
    alloc: Global,
    threads: u32,
    times: u64,
) -> Result<(u64, bool), TurnStop<Tally>>
    requires threads { (0 < threads) × (threads ≤ MOST_SEATS) }
    requires times { times ≤ MOST_GIVES }
    ensures entries { IfOk result (λ made. made.0 ≡ threads * times) }
    ensures own { IfOk result (λ made. made.1 ≡ true) }
{
    let (turn, seats) = Turn::new(alloc, Tally { entries: 0 }, threads)?;
    let Ok(mut row) = row_of(alloc, seats) else {
        return Err(TurnStop::NoMemory {
            value: Tally { entries: 0 },
        });
    };
    add_by_all(rt, &turn, &mut row, times);
    let own = row.iter().all(|seat| seat.gives() == times);
    Ok((turn.close(row).entries, own))
}

// Ends the turn with two seats, which stand for all.
fn close_two(
    alloc: Global,
    turn: Turn<Tally>,
    first: TurnSeat<Tally>,
    second: TurnSeat<Tally>,
) -> Result<Tally, AllocError>
    requires first { IsIdle turn.table first }
    requires second { IsIdle turn.table second }
    requires whole { first.parts + second.parts ≡ turn.seats }
    ensures { IfOk result (λ tally. tally.entries ≡ first.gives + second.gives) }
{
    let mut row = Vec::with_capacity(alloc, 2)?;
    row.push_reserved(first);
    row.push_reserved(second);
    Ok(turn.close(row))
}

#[test]
fn two_seats_take_turns(rt: HostRuntime) -> Result<(), Fail> {
    let (turn, mut seats) = Turn::new(rt.alloc(), Tally { entries: 0 }, 2)?;
    let mut first = seats.take().unwrap();
    let mut second = seats.take().unwrap();
    assert!(rt; seats.take().is_none());
    let mut tally = turn.try_take(&mut first)?;
    assert_eq!(rt; turn.try_take(&mut second).err(), Some(Busy));
    tally.entries += 1;
    turn.give(&mut first, tally);
    assert_eq!(rt; turn.counted(&mut second), 1);
    let tally = turn.try_take(&mut second)?;
    assert_eq!(rt; (tally.entries, turn.counted(&mut first)), (1, 1));
    turn.give(&mut second, tally);
    assert_eq!(rt; (first.gives(), second.gives()), (1, 0));
    assert_eq!(rt; close_two(rt.alloc(), turn, first, second)?.entries, 1);
    Ok(())
}

#[test]
fn four_threads_add_ten_thousand_each(rt: HostRuntime) -> Result<(), Fail> {
    assert_eq!(rt; tally_by(&rt, rt.alloc(), 4, 10_000)?, (40_000, true));
    Ok(())
}

// A value that has to be used up, and must not be dropped.
struct Errand {
    steps: u64,
}

impl Held for Errand {
    type Name = ();

    ghost name_of = { λ _. tt };

    ghost count_of = { λ errand. errand.steps };

    ghost nowhere = { tt };

    fn count(&self) -> u64 {
        self.steps
    }
}

// How many steps it had.
fn used_up(errand: Errand) -> u64 {
    let Errand { steps } = errand;
    steps
}

#[test]
fn a_value_that_must_not_be_dropped_comes_back(rt: HostRuntime) {
    match Turn::new(rt.alloc(), Errand { steps: 0 }, 1) {
        Ok((turn, mut seats)) => {
            let mut seat = seats.take().unwrap();
            seats.end();
            let mut errand = turn.take(&rt, &mut seat);
            errand.steps += 1;
            turn.give(&mut seat, errand);
            assert_eq!(rt; used_up(turn.close_whole(seat)), 1);
        }
        Err(TurnStop::NoMemory { value }) => assert_eq!(rt; used_up(value), 1),
    }
}
