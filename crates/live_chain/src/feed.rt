//! The feeder: it sends the plan's entries to the head.

ghost use Rattle.std.specs.Prelude.{◌≡◌, ◌+◌, ◌<◌, [], OnOk, length};
ghost use Rattle.rtrb.specs.Ring.{sent, known_free, SameProducer};
ghost use Rattle.live_chain.specs.Rings.{passed, whole};

use crate::ring::Passed;
use kr_order::{Copied, Entries, NoMemory};
use rtrb::Producer;
use std::alloc::Global;

// Pushes the entries.
fn push_all(alloc: Global, entries: &Entries, ring: &mut Producer<Passed>) -> Result<(), NoMemory>
    requires none { sent ring.old ≡ [] }
    requires room { length entries.now < known_free ring.old }
    ensures ring { SameProducer ring.old ring.new }
    ensures room { 0 < known_free ring.new }
    ensures ok { OnOk result (sent ring.new ≡ passed entries.now) }
{
    for entry in entries.as_slice() {
        let entry = entry.copy(alloc)?;
        ring.push_reserved(Passed::Next(entry));
    }
    Ok(())
}

// Pushes the entries, as far as there is memory for them, and then the end mark.
pub(crate) fn feed(
    alloc: Global,
    entries: &Entries,
    ring: &mut Producer<Passed>,
) -> Result<(), NoMemory>
    requires none { sent ring.old ≡ [] }
    requires room { length entries.now < known_free ring.old }
    ensures ring { SameProducer ring.old ring.new }
    ensures ok { OnOk result (sent ring.new ≡ whole entries.now) }
{
    let fed = push_all(alloc, entries, ring);
    ring.push_reserved(Passed::End);
    fed
}
