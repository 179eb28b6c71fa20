//! An order from nothing: entries are put into it, and it is asked.

ghost use Rattle.std.specs.Prelude.{◌≡◌, ◌+◌, ◌^◌, ◌<◌, [], ◌∷◌, ◌++◌, length, codes, string_bytes, IfOk, OnOk, OnErr};
ghost use Rattle.kr_order.specs.Answer.{answer_to};
ghost use Rattle.kr_order.specs.Reply.{reply_to};
ghost use Rattle.kr_order.specs.Rows.{assign, must};

use kr_order::{
    Answer, Asked, Batch, ClientId, Command, Entry, EventId, Kind, NoMemory, Pair, Query, Reply,
};
use order_state::State;
use query_worker::answer_all;
use std::alloc::Global;
use std::thread::Threads;

/// A batch of one pair: the first event has to be before the second.
pub fn must_be_before(alloc: Global, first: u64, second: u64) -> Result<Command, NoMemory>
    ensures { IfOk result (λ command. command ≡ assign (must first second ∷ [])) }
{
    let mut batch = Batch::new(alloc);
    let pair = Pair {
        first: EventId(first),
        kind: Kind::Must,
        second: EventId(second),
    };
    // an empty batch has room for 32 pairs, so that only memory can be wanting
    let Ok(()) = batch.push(pair) else {
        return Err(NoMemory);
    };
    Ok(Command::Assign(batch))
}

/// Client 1's command with this number, from 1, as an entry of the history.
pub fn entry(seq: u64, command: Command) -> Entry
    ensures { result ≡ record { client = record { 0 = 1 }; seq = seq; command = command } }
{
    Entry {
        client: ClientId(1),
        seq,
        command,
    }
}

/// Puts the entry at the end of the history, and gives its reply. After `NoMemory` the history is as before.
pub fn put(state: &mut State, entry: &Entry) -> Result<Reply, NoMemory>
    requires { length state.old.history < 2 ^ 58 }
    ensures history { OnOk result (state.new.history ≡ state.old.history ++ entry.now ∷ []) }
    ensures reply { IfOk result (λ reply. reply ≡ reply_to state.old.history entry.now.command) }
    ensures err { OnErr result (state.new.history ≡ state.old.history) }
{
    let prepared = state.prepare(entry)?;
    Ok(state.apply(prepared))
}

/// Puts these entries into the order, one after the other. After `NoMemory` those before the one that found none are in it.
pub fn put_all(state: &mut State, entries: &[Entry]) -> Result<(), NoMemory>
    requires { length state.old.history + length entries.now < 2 ^ 58 }
    ensures { OnOk result (state.new.history ≡ state.old.history ++ entries.now) }
{
    for entry in entries {
        put(state, entry)?;
    }
    Ok(())
}

/// Makes so many events, as client 1, whose commands have these numbers and those behind them, and gives how many entries
/// there are then. After `NoMemory` those before the one that found none are in it.
pub fn create_all(state: &mut State, first: u64, times: u64) -> Result<u64, NoMemory>
    requires { first + times < 2 ^ 64 }
    ensures { IfOk result (λ entries. entries ≡ length state.new.history) }
{
    for made in 0..times {
        if state.count() >= 1 << 57 {
            return Err(NoMemory);
        }
        put(state, &entry(first + made, Command::Create))?;
    }
    Ok(state.count())
}

/// How the first event stands to the second after the history.
pub fn ask<R: Threads + Sync>(
    rt: &R,
    alloc: Global,
    state: &State,
    first: u64,
    second: u64,
) -> Result<Answer, NoMemory>
    ensures { IfOk result (λ answer. answer ≡ answer_to state.now.history first second) }
{
    let mut pairs = Asked::new(alloc);
    let Ok(()) = pairs.push((EventId(first), EventId(second))) else {
        return Err(NoMemory);
    };
    let query = Query {
        client: ClientId(1),
        q: 1,
        part: 1,
        pairs,
    };
    let told = answer_all(rt, alloc, state, &[query], 1)?;
    let told = &told[0];
    Ok(told.answers.as_slice()[0])
}

/// A shop's order and its payment, made, bound and asked about: what is told, line by line.
pub fn from_nothing<R: Threads + Sync>(rt: &R, alloc: Global) -> Result<String, NoMemory>
    ensures { IfOk result (λ text. string_bytes text ≡ codes "created 1\ncreated 2\nassigned kept\n1 is before 2\n") }
{
    let mut state = State::new(alloc);
    let order = put(&mut state, &entry(1, Command::Create))?;
    let payment = put(&mut state, &entry(2, Command::Create))?;
    let bound = put(&mut state, &entry(3, must_be_before(alloc, 1, 2)?))?;
    let answer = ask(rt, alloc, &state, 1, 2)?;
    let text = format!(in alloc; "{order}\n{payment}\n{bound}\n1 is {answer} 2\n")?;
    Ok(text)
}
