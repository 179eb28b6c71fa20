//! How a service ends.

ghost use Rattle.std.specs.Prelude.{◌≡◌, ◌+◌, [], List, All, length, IfNone, IfSome};
ghost use Rattle.kr_order.specs.declared.history.Entry.{Entry};
ghost use Rattle.kr_order.specs.Done.{done_of};
ghost use Rattle.kr_order.specs.Prefix.{IsPrefix};
ghost use Rattle.replica_lock.specs.Views.{IsIdle};
ghost use Rattle.live_service.specs.Views.{named};
ghost use Rattle.live_service.specs.Close.{AreAll, IsOf, IsKept, IsHistory, JoinsLast, made_by_all};

use crate::behind::Behind;
use crate::command::is_all;
use crate::{Pass, Service};
use kr_order::DoneList;
use order_board::BoardReader;
use replica_lock::{Turn, TurnSeat};
use std::sync::Wait;
use std::thread;

// Waits until the reader knows of no more than the history has.
fn settle<R: Wait>(rt: &R, behind: &Behind, reader: &mut BoardReader)
    requires { behind.now.copies ≡ reader.old.copies }
    ensures { IsPrefix reader.old.list behind.now.list }
{
    for _ in rt.forever() {
        if is_all(behind, reader) {
            return;
        }
        thread::yield_now();
    }
    unreachable!()
}

// Takes the last pass off and joins its seat into this one. What is left of it is its reader.
fn join_last(
    turn: &Turn<Behind>,
    seat: &mut TurnSeat<Behind>,
    passes: &mut Vec<Pass>,
) -> Option<BoardReader>
    requires idle { IsIdle turn.now.table seat.old }
    requires each { All (IsOf (record { table = turn.now.table; copies = turn.now.name })) passes.old.items }
    ensures some { IfSome result (λ reader. JoinsLast turn.now seat.old seat.new passes.old.items passes.new.items reader) }
    ensures none { IfNone result ((passes.old.items ≡ []) × (passes.new.items ≡ []) × (seat.new ≡ seat.old)) }
{
    let pass = passes.pop()?;
    let (other, reader) = pass.into_parts();
    turn.join(seat, other);
    Some(reader)
}

// Ends the turn with this seat and those of the passes, which are all. The history goes on from what each pass was told of.
fn gather<R: Wait>(
    rt: &R,
    turn: Turn<Behind>,
    mut seat: TurnSeat<Behind>,
    mut passes: Vec<Pass>,
) -> Behind
    requires idle { IsIdle turn.table seat }
    requires each { All (IsOf (record { table = turn.table; copies = turn.name })) passes.items }
    requires whole { seat.parts + length passes.items ≡ turn.seats }
    ensures name { named result.copies ≡ turn.name }
    ensures count { length result.list ≡ seat.gives + made_by_all passes.items }
    ensures each { All (IsKept result.list) passes.items }
{
    match join_last(&turn, &mut seat, &mut passes) {
        None => {
            passes.destroy_empty();
            turn.close_whole(seat)
        }
        Some(mut reader) => {
            let behind = gather(rt, turn, seat, passes);
            settle(rt, &behind, &mut reader);
            behind
        }
    }
}

impl Service {
    /// Ends the service with all its passes. What is left is the journal: each entry with its place and reply. It goes on from
    /// all that each pass was told of; it has the commands that the passes were answered, each once, with the numbers 1, 2, 3
    /// and so on for each client, and no others. It takes no memory.
    pub fn close<R: Wait>(self, rt: &R, mut passes: Vec<Pass>) -> DoneList
        requires { AreAll self passes.items }
        ensures { (history : List Entry) × (result ≡ done_of history) × IsHistory passes.items history }
    {
        let Service { turn } = self;
        let (seat, mut reader) = passes.pop().unwrap().into_parts();
        let behind = gather(rt, turn, seat, passes);
        settle(rt, &behind, &mut reader);
        behind.end(rt)
    }

    /// Ends the service with all its passes, without its journal.
    pub fn end<R: Wait>(self, rt: &R, passes: Vec<Pass>)
        requires { AreAll self passes.items }
    {
        drop(self.close(rt, passes));
    }
}
