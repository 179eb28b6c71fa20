//! Entries, and how they are put into the copies.

ghost use Rattle.std.specs.Prelude.{◌≡◌, ◌+◌, ◌^◌, ◌<◌, ◌++◌, length, OnOk};

use kr_order::{Asked, Batch, ClientId, Command, Entry, EventId, Kind, NoMemory, Pair, PushStop};
use order_board::BoardWriter;
use std::alloc::Global;
use std::sync::Wait;

// Puts these entries into the copies, one after the other.
pub fn write<R: Wait>(rt: &R, writer: &mut BoardWriter, entries: &[Entry]) -> Result<(), NoMemory>
    requires { length writer.old.list + length entries.now < 2 ^ 58 }
    ensures list { OnOk result (writer.new.list ≡ writer.old.list ++ entries.now) }
    ensures copies { writer.new.copies ≡ writer.old.copies }
{
    for entry in entries {
        writer.apply(rt, entry)?;
    }
    Ok(())
}

// A batch of one pair that must hold.
fn must(alloc: Global, first: u64, second: u64) -> Result<Command, PushStop> {
    let mut batch = Batch::new(alloc);
    batch.push(Pair {
        first: EventId(first),
        kind: Kind::Must,
        second: EventId(second),
    })?;
    Ok(Command::Assign(batch))
}

// The client's entry at this place, from 1: two creates, then a batch that puts the first of
// these events before the second, and so on.
pub fn entry_at(alloc: Global, place: u64) -> Result<Entry, PushStop> {
    let command = if place % 3 == 0 {
        must(alloc, (place / 3 * 2).saturating_sub(1), place / 3 * 2)?
    } else {
        Command::Create
    };
    Ok(Entry {
        client: ClientId(1),
        seq: place,
        command,
    })
}

// So many entries.
pub fn entries(alloc: Global, count: u64) -> Result<Vec<Entry>, PushStop> {
    let mut entries = Vec::new(alloc);
    for place in 1..count.saturating_add(1) {
        let Ok(_) = entries.push(entry_at(alloc, place)?) else {
            return Err(PushStop::NoMemory);
        };
    }
    Ok(entries)
}

// The pairs of these events.
pub fn pairs_of(alloc: Global, events: &[(u64, u64)]) -> Result<Asked, PushStop> {
    let mut pairs = Asked::new(alloc);
    for (first, second) in events {
        pairs.push((EventId(*first), EventId(*second)))?;
    }
    Ok(pairs)
}
