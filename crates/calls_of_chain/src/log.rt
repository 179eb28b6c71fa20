//! Each call of a log, where memory suffices.

use cmd_log::*;
use kr_order::{ClientId, Command, Entry, NoMemory};
use std::alloc::Global;
use std::process::Abort;
use std::test::Fail;

// A log can be moved to a thread and be read by several.
fn crosses_threads<T: Send + Sync>(_value: &T) {}

// A create of the client.
fn create(client: u32, seq: u64) -> Entry {
    Entry {
        client: ClientId(client),
        seq,
        command: Command::Create,
    }
}

// The entry at the place is the client's, with this sequence number.
fn stands(rt: &impl Abort, log: &Log, place: u64, client: u32, seq: u64) -> Result<(), NoMemory> {
    match log.get(place)? {
        Some(entry) => assert!(rt; entry.client == ClientId(client) && entry.seq == seq),
        None => assert!(rt; false),
    }
    Ok(())
}

#[test]
fn entries_stand_at_their_places(rt: HostRuntime) -> Result<(), Fail> {
    let mut log = Log::new(rt.alloc());
    crosses_threads(&log);
    log.push(create(1, 2))?;
    log.push(create(1, 1))?;
    log.push(create(2, 7))?;
    assert_eq!(&rt; (log.base(), log.len()), (0, 3));
    stands(&rt, &log, 1, 1, 2)?;
    stands(&rt, &log, 3, 2, 7)?;
    assert!(&rt; log.get(0)?.is_none() && log.get(4)?.is_none());
    Ok(())
}

#[test]
fn the_highest_seq_is_not_the_last(rt: HostRuntime) -> Result<(), Fail> {
    let mut log = Log::new(rt.alloc());
    log.push(create(1, 2))?;
    log.push(create(1, 1))?;
    log.push(create(2, 7))?;
    assert_eq!(&rt; log.highest_seq(ClientId(1)), 2);
    assert_eq!(&rt; log.highest_seq(ClientId(3)), 0);
    Ok(())
}

#[test]
fn many_entries_are_put_at_once(rt: HostRuntime) -> Result<(), Fail> {
    let mut log = Log::new(rt.alloc());
    log.push(create(1, 2))?;
    log.push_all(&[create(1, 5), create(2, 7), create(1, 4)])?;
    log.push_all(&[])?;
    assert_eq!(&rt; log.len(), 4);
    stands(&rt, &log, 1, 1, 2)?;
    stands(&rt, &log, 2, 1, 5)?;
    stands(&rt, &log, 4, 1, 4)?;
    assert_eq!(&rt; log.highest_seq(ClientId(1)), 5);
    assert_eq!(&rt; log.highest_seq(ClientId(2)), 7);
    Ok(())
}

#[test]
fn a_suffix_ends_with_the_log(rt: HostRuntime) -> Result<(), Fail> {
    let mut log = Log::new(rt.alloc());
    log.push(create(1, 1))?;
    log.push(create(1, 2))?;
    log.push(create(1, 3))?;
    assert_eq!(&rt; log.suffix(2, 16)?.len(), 2);
    assert_eq!(&rt; log.suffix(1, 2)?.len(), 2);
    assert_eq!(&rt; log.suffix(9, 16)?.len(), 0);
    Ok(())
}
