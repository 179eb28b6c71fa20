//! Each call of a link, where memory suffices.

use chain_link::*;
use cmd_log::Log;
use kr_order::{ClientId, Command, Entries, Entry, Message, NoMemory, Packets, ServerId};
use std::alloc::Global;
use std::test::Fail;

// So many creates of one client.
fn creates(alloc: Global, count: u64) -> Result<Entries, NoMemory> {
    let mut entries = Entries::new(alloc);
    for seq in 0..count {
        entries.push(Entry {
            client: ClientId(1),
            seq,
            command: Command::Create,
        })?;
    }
    Ok(entries)
}

// The window begins at this place, and has so many entries.
fn is_window(packets: &Packets, place: u64, count: usize) -> bool {
    match packets.as_slice() {
        [packet] => match &packet.message {
            Message::Append { first, entries } => *first == place && entries.len() == count,
            _ => false,
        },
        _ => false,
    }
}

#[test]
fn a_window_is_sent_until_it_is_acknowledged(rt: HostRuntime) -> Result<(), Fail> {
    let alloc = rt.alloc();
    let own = ServerId(1);
    let mut log = Log::new(alloc);
    let taken = receive(&mut log, 1, &creates(alloc, 20)?)?;
    assert_eq!(&rt; (taken, log.len()), (20, 20));
    let mut link = Link::new();
    assert_eq!(&rt; link.window(alloc, own, &log)?.len(), 0);
    link.aim(Some(ServerId(2)));
    assert!(&rt; is_window(&link.window(alloc, own, &log)?, 1, 16));
    link.heard(16, log.len());
    assert!(&rt; is_window(&link.window(alloc, own, &log)?, 17, 4));
    link.heard(3, log.len());
    assert_eq!(&rt; link.fed(), 16);
    link.heard(99, log.len());
    assert!(&rt; link.fed() == 20 && link.window(alloc, own, &log)?.len() == 0);
    link.aim(Some(ServerId(3)));
    assert!(&rt; link.fed() == 0 && link.next() == Some(ServerId(3)));
    Ok(())
}

#[test]
fn entries_that_are_held_are_not_taken_again(rt: HostRuntime) -> Result<(), Fail> {
    let alloc = rt.alloc();
    let mut log = Log::new(alloc);
    let entries = creates(alloc, 3)?;
    assert_eq!(&rt; receive(&mut log, 2, &entries)?, 0);
    assert_eq!(&rt; receive(&mut log, 1, &entries)?, 3);
    assert_eq!(&rt; receive(&mut log, 1, &entries)?, 0);
    assert_eq!(&rt; receive(&mut log, 3, &entries)?, 2);
    assert_eq!(&rt; log.len(), 5);
    Ok(())
}
