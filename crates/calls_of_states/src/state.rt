//! Each call of a state and of a board that may want memory, where memory suffices. Replies, answers and what is held are
//! compared with those of a plain order by tools/test_order.

use kr_order::{Asked, ClientId, Command, Entry, EventId, NoMemory, PushStop, Query};
use order_state::*;
use reach::{Asks, Scratch};
use std::alloc::Global;
use std::test::Fail;
use std::thread::Threads;

// A state can be moved to a thread and be read by several.
fn crosses_threads<T: Send + Sync>(_value: &T) {}

// A client's create.
fn create() -> Entry {
    Entry {
        client: ClientId(1),
        seq: 7,
        command: Command::Create,
    }
}

// The state of one event.
fn one(alloc: Global) -> Result<State, NoMemory> {
    let mut state = State::new(alloc);
    let prepared = state.prepare(&create())?;
    let _ = state.apply(prepared);
    Ok(state)
}

// Whether there is memory to search.
fn fits(alloc: Global, state: &State) -> bool {
    state.fit(&mut Scratch::new(alloc)).is_ok()
}

// A board of one event.
fn board(alloc: Global) -> Result<PlainBoard, NoMemory> {
    let mut board = PlainBoard::new(alloc);
    let _ = board.apply(&create())?;
    Ok(board)
}

// The number of the client's last command.
fn last_seq(board: &PlainBoard) -> Result<u64, NoMemory> {
    match board.last(ClientId(1))? {
        Some(kept) => Ok(kept.seq),
        None => Ok(0),
    }
}

// The query of one pair.
fn query(alloc: Global) -> Result<Query, PushStop> {
    let mut pairs = Asked::new(alloc);
    pairs.push((EventId(1), EventId(1)))?;
    Ok(Query {
        client: ClientId(1),
        q: 1,
        part: 1,
        pairs,
    })
}

// How many answers the board has to it by so many workers.
fn answers<R: Threads + Sync>(
    rt: &R,
    board: &PlainBoard,
    query: Query,
    workers: u32,
) -> Result<usize, NoMemory> {
    match board.all(rt, &[query], workers)?.as_slice() {
        [told] => Ok(told.answers.len()),
        _ => Ok(0),
    }
}

#[test]
fn an_event_is_made(rt: HostRuntime) -> Result<(), Fail> {
    let state = one(rt.alloc())?;
    crosses_threads(&state);
    assert!(rt; state.born() == 1);
    Ok(())
}

#[test]
fn there_is_memory_to_search(rt: HostRuntime) -> Result<(), Fail> {
    assert!(rt; fits(rt.alloc(), &one(rt.alloc())?));
    Ok(())
}

#[test]
fn a_board_keeps_the_last_command(rt: HostRuntime) -> Result<(), Fail> {
    assert!(rt; last_seq(&board(rt.alloc())?)? == 7);
    Ok(())
}

#[test]
fn a_board_answers(rt: HostRuntime) -> Result<(), Fail> {
    let board = board(rt.alloc())?;
    for workers in 0..10 {
        assert!(rt; answers(&rt, &board, query(rt.alloc())?, workers)? == 1);
    }
    Ok(())
}
