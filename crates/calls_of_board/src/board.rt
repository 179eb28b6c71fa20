//! A writer beside its readers, and a door before and after the writer's end.

ghost use Rattle.std.specs.Prelude.{◌≡◌, ◌+◌, ◌^◌, ◌<◌, ◌++◌, [], length, IfOk, OnOk};
ghost use Rattle.kr_order.specs.Prefix.{IsPrefix};
ghost use Rattle.order_board.specs.Views.{told_of};

use crate::writing::{entries, entry_at, pairs_of, write};
use kr_order::{Answer, Asked, Entry, Told};
use order_board::{BoardReader, BoardWriter, Door, QueryStop, Readers, two_copies};
use std::alloc::Global;
use std::process::Abort;
use std::sync::Wait;
use std::test::Fail;
use std::thread::{Threads, join_mut};

// Asks these pairs so often; the reader sees more and more.
fn ask(reader: &mut BoardReader, pairs: &Asked, times: u64) -> Result<(), QueryStop>
    ensures list { IsPrefix reader.old.list reader.new.list }
    ensures copies { reader.new.copies ≡ reader.old.copies }
{
    for _ in 0..times {
        reader.query(pairs)?;
    }
    Ok(())
}

// Puts these entries into the copies while another thread asks these pairs. What is told in the end is after a list that
// begins with all that was published, and with all that the reader saw.
fn write_and_ask<R: Threads + Wait + Sync>(
    rt: &R,
    writer: &mut BoardWriter,
    reader: &mut BoardReader,
    entries: &[Entry],
    pairs: &Asked,
) -> Result<Told, QueryStop>
    requires copies { reader.old.copies ≡ writer.old.copies }
    requires few { length writer.old.list + length entries.now < 2 ^ 58 }
    ensures list { OnOk result (writer.new.list ≡ writer.old.list ++ entries.now) }
    ensures seen { OnOk result (IsPrefix reader.old.list reader.new.list) }
    ensures all { OnOk result (IsPrefix writer.new.list reader.new.list) }
    ensures told { IfOk result (λ told. told ≡ told_of reader.new.list pairs.now) }
{
    let (written, asked) = join_mut(
        rt,
        &mut || write(rt, writer, entries),
        &mut || ask(reader, pairs, 100),
    );
    asked?;
    let Ok(()) = written else {
        return Err(QueryStop::NoMemory);
    };
    reader.learn(&writer.tell());
    reader.query(pairs)
}

// Whether these are the answers after so many entries.
fn are_after(told: &Told, count: u64) -> bool {
    let answers = [
        Answer::Before,
        Answer::After,
        Answer::Concurrent,
        Answer::Unknown,
    ];
    told.entry == count && told.answers.as_slice() == answers.as_slice()
}

// Thirty entries are written beside a reader.
fn thirty<R: Threads + Wait + Abort + Sync>(
    rt: &R,
    alloc: Global,
    writer: &mut BoardWriter,
    readers: &mut Readers,
) -> Result<(), Fail>
    requires copies { readers.old.copies ≡ writer.old.copies }
    requires left { readers.old.left ≡ 1 }
    requires list { writer.old.list ≡ [] }
{
    let mut reader = readers.take().unwrap();
    let entries = entries(alloc, 30)?;
    let pairs = pairs_of(alloc, &[(19, 20), (20, 19), (1, 20), (1, 21)])?;
    assert!(rt; entries.len() == 30);
    let told = write_and_ask(rt, writer, &mut reader, &entries, &pairs)?;
    assert!(rt; are_after(&told, 30));
    Ok(())
}

#[test]
fn entries_are_written_while_another_thread_asks(rt: HostRuntime) -> Result<(), Fail> {
    let (mut writer, mut readers) = two_copies(&rt, rt.alloc(), 1)?;
    let steps = thirty(&rt, rt.alloc(), &mut writer, &mut readers);
    writer.end(&rt);
    steps
}

// Both readers ask these pairs at the same time.
fn ask_both<R: Threads + Sync>(
    rt: &R,
    one: &mut BoardReader,
    other: &mut BoardReader,
    pairs: &Asked,
) -> (Result<(), QueryStop>, Result<(), QueryStop>) {
    join_mut(
        rt,
        &mut || ask(one, pairs, 1000),
        &mut || ask(other, pairs, 1000),
    )
}

// These entries are written while both readers ask. What the one is told in the end.
fn write_beside<R: Threads + Wait + Sync>(
    rt: &R,
    writer: &mut BoardWriter,
    one: &mut BoardReader,
    other: &mut BoardReader,
    entries: &[Entry],
    pairs: &Asked,
) -> Result<Told, QueryStop>
    requires { length writer.old.list + length entries.now < 2 ^ 58 }
{
    let (written, asked) = join_mut(
        rt,
        &mut || write(rt, writer, entries),
        &mut || ask_both(rt, one, other, pairs),
    );
    let Ok(()) = written else {
        return Err(QueryStop::NoMemory);
    };
    asked.0?;
    asked.1?;
    one.query(pairs)
}

// Ten thousand entries are written beside two readers.
fn ten_thousand<R: Threads + Wait + Abort + Sync>(
    rt: &R,
    alloc: Global,
    writer: &mut BoardWriter,
    one: &mut BoardReader,
    other: &mut BoardReader,
) -> Result<(), Fail>
    requires { writer.old.list ≡ [] }
{
    let entries = entries(alloc, 10_000)?;
    let pairs = pairs_of(alloc, &[(19, 20), (20, 19), (1, 20), (1, 9000)])?;
    assert!(rt; entries.len() == 10_000);
    let told = write_beside(rt, writer, one, other, &entries, &pairs)?;
    assert!(rt; are_after(&told, 10_000));
    Ok(())
}

#[test]
fn two_readers_ask_while_ten_thousand_entries_are_written(rt: HostRuntime) -> Result<(), Fail> {
    let (mut writer, mut readers) = two_copies(&rt, rt.alloc(), 2)?;
    let mut first = readers.take();
    let mut second = readers.take();
    let run = match &mut first {
        None => Err("no reader".into()),
        Some(one) => match &mut second {
            None => Err("no second reader".into()),
            Some(other) => ten_thousand(&rt, rt.alloc(), &mut writer, one, other),
        },
    };
    writer.end(&rt);
    run
}

// The first event is made, and who enters by the door sees it. The door comes back.
fn enter_once<R: Wait>(
    rt: &R,
    alloc: Global,
    writer: &mut BoardWriter,
    door: Door,
) -> Result<(Door, u64), Fail>
    requires { writer.old.list ≡ [] }
{
    writer.apply(rt, &entry_at(alloc, 1)?)?;
    match door.enter() {
        Ok(opened) => {
            let born = opened.state().born();
            Ok((opened.leave(), born))
        }
        Err(_) => Err("the door is shut".into()),
    }
}

#[test]
fn a_door_is_open_until_the_writer_ends(rt: HostRuntime) -> Result<(), Fail> {
    let (mut writer, mut readers) = two_copies(&rt, rt.alloc(), 1)?;
    let first = match readers.take() {
        Some(reader) => enter_once(&rt, rt.alloc(), &mut writer, reader.into_door()),
        None => Err("no reader".into()),
    };
    writer.end(&rt);
    let (door, born) = first?;
    assert!(rt; born == 1 && door.seen() == 1 && door.shuts() == 0);
    let mut reader = BoardReader::new(rt.alloc(), door);
    let pairs = pairs_of(rt.alloc(), &[(1, 1)])?;
    assert!(rt; reader.query(&pairs).err() == Some(QueryStop::Shut));
    assert!(rt; reader.seen() == 1 && reader.shuts() == 1);
    Ok(())
}
