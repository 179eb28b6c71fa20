//! What goes along the rings.

ghost use Rattle.std.specs.Prelude.{◌≡◌, ◌+◌, [], IfOk};
ghost use Rattle.rtrb.specs.Ring.{sent, received, known_free, IsPair};
ghost use Rattle.live_chain.specs.Rings.{HasPlace, IsCopyFor, PassesOn};

use kr_order::{Copied, Entry, NoMemory};
use rtrb::{Consumer, Producer, RingBuffer};
use std::alloc::Global;

// What a node is passed: the entries, one after the other, and then the end mark.
#[derive(Drop)]
pub enum Passed {
    Next(Entry),
    End,
}

// What a reader is told: how many entries its node has applied, and at last the end mark.
#[derive(Drop)]
pub enum Counted {
    Applied(u64),
    End,
}

// A ring with room for so many items and the end mark.
pub(crate) fn ring_for<T: Drop>(
    alloc: Global,
    most: usize,
) -> Result<(Producer<T>, Consumer<T>), NoMemory>
    ensures pair { IfOk result (λ ends. IsPair ends.0 ends.1) }
    ensures empty { IfOk result (λ ends. (sent ends.0 ≡ []) × (received ends.1 ≡ [])) }
    ensures room { IfOk result (λ ends. known_free ends.0 ≡ most + 1) }
{
    let Some(capacity) = most.checked_add(1) else {
        return Err(NoMemory);
    };
    Ok(RingBuffer::new(alloc, capacity)?)
}

// The copy of an entry that the next node is passed, where there is a next node.
pub(crate) fn copy_for(
    next: &Option<Producer<Passed>>,
    alloc: Global,
    entry: &Entry,
) -> Result<Option<Passed>, NoMemory>
    ensures { IfOk result (λ copy. IsCopyFor next.now entry.now copy) }
{
    match next {
        Some(_) => Ok(Some(Passed::Next(entry.copy(alloc)?))),
        None => Ok(None),
    }
}

// Pushes the item into the next node's ring, where there is a next node.
pub(crate) fn pass_on(next: &mut Option<Producer<Passed>>, item: Option<Passed>)
    requires { HasPlace next.old }
    ensures { PassesOn next.old item next.new }
{
    let Some(ring) = next else {
        return;
    };
    if let Some(item) = item {
        ring.push_reserved(item);
    }
}
