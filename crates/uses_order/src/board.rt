//! The board: a thread that asks while another writes.

ghost use Rattle.std.specs.Prelude.{◌≡◌, ◌+◌, ◌^◌, ◌<◌, ◌≤◌, ◌++◌, [], length, IfOk, OnOk};
ghost use Rattle.kr_order.specs.Prefix.{IsPrefix};
ghost use Rattle.order_board.specs.Views.{told_of};

use crate::order::{entry, must_be_before};
use kr_order::{Answer, Asked, Command, Entry, EventId, NoMemory, Told};
use order_board::{BoardReader, BoardWriter, QueryStop, Readers, two_copies};
use std::alloc::Global;
use std::sync::Wait;
use std::thread::{Threads, join_mut};

/// Puts these entries into the order, one after the other.
fn write<R: Wait>(rt: &R, writer: &mut BoardWriter, entries: &[Entry]) -> Result<(), NoMemory>
    requires { length writer.old.list + length entries.now < 2 ^ 58 }
    ensures list { OnOk result (writer.new.list ≡ writer.old.list ++ entries.now) }
    ensures copies { writer.new.copies ≡ writer.old.copies }
{
    for entry in entries {
        writer.apply(rt, entry)?;
    }
    Ok(())
}

/// Asks these pairs so often. What the reader has seen only grows.
fn ask(reader: &mut BoardReader, pairs: &Asked, times: u64) -> Result<(), QueryStop>
    ensures list { IsPrefix reader.old.list reader.new.list }
    ensures copies { reader.new.copies ≡ reader.old.copies }
{
    for _ in 0..times {
        reader.query(pairs)?;
    }
    Ok(())
}

/// One thread writes while another asks; then what was written is asked about.
fn write_and_ask<R: Threads + Wait + Sync>(
    rt: &R,
    writer: &mut BoardWriter,
    reader: &mut BoardReader,
    entries: &[Entry],
    pairs: &Asked,
) -> Result<Told, QueryStop>
    requires copies { reader.old.copies ≡ writer.old.copies }
    requires few { length writer.old.list + length entries.now < 2 ^ 58 }
    ensures written { OnOk result (writer.new.list ≡ writer.old.list ++ entries.now) }
    ensures seen { OnOk result (IsPrefix writer.new.list reader.new.list) }
    ensures told { IfOk result (λ told. told ≡ told_of reader.new.list pairs.now) }
{
    let (written, asked) = join_mut(
        rt,
        &mut || write(rt, writer, entries),
        &mut || ask(reader, pairs, 100),
    );
    asked?;
    let Ok(()) = written else {
        return Err(QueryStop::NoMemory);
    };
    reader.learn(&writer.tell());
    reader.query(pairs)
}

// Two events, and the first before the second.
fn entries(alloc: Global) -> Result<Vec<Entry>, NoMemory>
    ensures { IfOk result (λ entries. length entries.items ≡ 3) }
{
    let mut entries = Vec::with_capacity(alloc, 3)?;
    entries.push_reserved(entry(1, Command::Create));
    entries.push_reserved(entry(2, Command::Create));
    entries.push_reserved(entry(3, must_be_before(alloc, 1, 2)?));
    Ok(entries)
}

// The pair of the two events.
fn pairs(alloc: Global) -> Result<Asked, NoMemory>
    ensures { IfOk result (λ pairs. length pairs ≡ 1) }
{
    let mut pairs = Asked::new(alloc);
    let Ok(()) = pairs.push((EventId(1), EventId(2))) else {
        return Err(NoMemory);
    };
    Ok(pairs)
}

// The writer's steps, with the one reader of its copies.
fn steps<R: Threads + Wait + Sync>(
    rt: &R,
    alloc: Global,
    writer: &mut BoardWriter,
    readers: &mut Readers,
) -> Result<Told, QueryStop>
    requires copies { readers.old.copies ≡ writer.old.copies }
    requires left { readers.old.left ≡ 1 }
    requires list { writer.old.list ≡ [] }
    ensures entry { IfOk result (λ told. 3 ≤ told.entry) }
    ensures answers { IfOk result (λ told. length told.answers ≡ 1) }
{
    let mut reader = readers.take().unwrap();
    let (Ok(entries), Ok(pairs)) = (entries(alloc), pairs(alloc)) else {
        return Err(QueryStop::NoMemory);
    };
    write_and_ask(rt, writer, &mut reader, &entries, &pairs)
}

/// What is told of a shop's order and its payment once both are bound, to a reader that asked in a thread of its own
/// before.
pub fn beside_a_writer<R: Threads + Wait + Sync>(rt: &R, alloc: Global) -> Result<Told, QueryStop>
    ensures entry { IfOk result (λ told. 3 ≤ told.entry) }
    ensures answers { IfOk result (λ told. length told.answers ≡ 1) }
{
    let Ok((mut writer, mut readers)) = two_copies(rt, alloc, 1) else {
        return Err(QueryStop::NoMemory);
    };
    let told = steps(rt, alloc, &mut writer, &mut readers);
    writer.end(rt);
    told
}
