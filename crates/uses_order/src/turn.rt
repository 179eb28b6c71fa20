//! The turn: threads that take one order, one at a time, and give it back with an entry more.

ghost use Rattle.std.specs.Prelude.{◌≡◌, ◌≤◌, ◌+◌, ◌*◌, ◌<◌, length, IfOk, OnOk, OnErr};
ghost use Rattle.replica_lock.specs.Views.{IsIdle};

use crate::order::{entry, put};
use kr_order::{Command, Entry, NoMemory, Reply};
use order_state::State;
use replica_lock::{Held, MOST_GIVES, Turn, TurnSeat};
use std::alloc::Global;
use std::sync::Wait;
use std::thread::{Threads, join_mut};

/// An order that threads take in turn. Its entries are those of its history.
#[derive(Drop)]
pub struct SharedOrder {
    state: State,
}

impl Held for SharedOrder {
    ghost use Rattle.std.specs.Prelude.{length};

    type Name = ();

    ghost name_of = { λ _. tt };

    ghost count_of = { λ order. length order.state.history };

    ghost nowhere = { tt };

    fn count(&self) -> u64 {
        self.state.count()
    }
}

/// Puts the entry into the order, in a turn of its own. After `NoMemory` the order was given back as it was.
fn put_in_turn<R: Wait>(
    rt: &R,
    turn: &Turn<SharedOrder>,
    seat: &mut TurnSeat<SharedOrder>,
    entry: &Entry,
) -> Result<Reply, NoMemory>
    requires idle { IsIdle turn.now.table seat.old }
    requires room { seat.old.gives < MOST_GIVES }
    ensures idle { IsIdle turn.now.table seat.new }
    ensures parts { seat.new.parts ≡ seat.old.parts }
    ensures ok { OnOk result (seat.new.gives ≡ seat.old.gives + 1) }
    ensures err { OnErr result (seat.new.gives ≡ seat.old.gives) }
{
    let mut order = turn.take(rt, seat);
    let reply = put(&mut order.state, entry);
    turn.give(seat, order);
    reply
}

/// Makes so many events, each in a turn of its own.
fn create<R: Wait>(
    rt: &R,
    turn: &Turn<SharedOrder>,
    seat: &mut TurnSeat<SharedOrder>,
    times: u64,
) -> Result<(), NoMemory>
    requires idle { IsIdle turn.now.table seat.old }
    requires room { seat.old.gives + times ≤ MOST_GIVES }
    ensures idle { IsIdle turn.now.table seat.new }
    ensures parts { seat.new.parts ≡ seat.old.parts }
    ensures gives { OnOk result (seat.new.gives ≡ seat.old.gives + times) }
{
    for done in 0..times {
        put_in_turn(rt, turn, seat, &entry(done + 1, Command::Create))?;
    }
    Ok(())
}

/// Two threads make so many events each in one order: how many entries it has in the end.
pub fn by_two_threads<R: Threads + Wait + Sync>(
    rt: &R,
    alloc: Global,
    times: u64,
) -> Result<u64, NoMemory>
    requires { times ≤ MOST_GIVES }
    ensures { IfOk result (λ entries. entries ≡ 2 * times) }
{
    let order = SharedOrder {
        state: State::new(alloc),
    };
    let Ok((turn, mut seats)) = Turn::new(alloc, order, 2) else {
        return Err(NoMemory);
    };
    let mut one = seats.take().unwrap();
    let mut other = seats.take().unwrap();
    let (by_one, by_other) = join_mut(
        rt,
        &mut || create(rt, &turn, &mut one, times),
        &mut || create(rt, &turn, &mut other, times),
    );
    turn.join(&mut one, other);
    let order = turn.close_whole(one);
    by_one?;
    by_other?;
    Ok(order.state.count())
}
