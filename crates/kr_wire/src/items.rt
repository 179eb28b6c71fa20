//! Lists of items, each read from the front of bytes after the one before it, or put behind what is there.

ghost use Rattle.std.specs.Prelude.{◌≡◌, ◌≤◌, ◌++◌, ℕ, Bool, List, Result, flat_map, length, OnOk};
ghost use Rattle.kr_wire.specs.Reading.{Gives, Read, items_at, counted_at};
ghost use Rattle.kr_wire.specs.Taking.{items_take, counted_take};
ghost use Rattle.kr_wire.specs.Spelling.{counted};

use crate::fields::{byte_in, put_1};
use crate::stop::FieldError;
use kr_order::{Capped, Listed, NoMemory, PushStop};
use std::alloc::Global;

// A value with a spelling of its own. Contracts see the spelling, what a reader answers, and for which bytes memory is
// taken while they are read.
pub(crate) trait Spelt: Sized + Drop {
    ghost text: { Self → List ℕ };

    ghost reading: { List ℕ → Read Self };

    ghost taking: { List ℕ → Bool };

    // The value that the front of the bytes spells, and what follows.
    fn read(alloc: Global, bytes: &[u8]) -> Result<(Self, &[u8]), FieldError>
        ensures { Gives (taking bytes.now) (λ read. (read.0, read.1.now)) result (reading bytes.now) };

    // Puts the spelling behind what is there.
    fn put(&self, out: &mut Vec<u8>) -> Result<(), NoMemory>
        ensures { OnOk result (out.new.items ≡ out.old.items ++ text self.now) };
}

// So many items, and what follows.
fn items_at<X: Spelt>(alloc: Global, count: u8, bytes: &[u8]) -> Result<(Vec<X>, &[u8]), FieldError>
    ensures { Gives (items_take X.reading X.taking count bytes.now)
        (λ read. (read.0.items, read.1.now)) result (items_at X.reading count bytes.now) }
{
    let mut items = Vec::new(alloc);
    let mut rest = bytes;
    for _ in 0..count {
        let (item, after) = X::read(alloc, rest)?;
        items.push(item)?;
        rest = after;
    }
    Ok((items, rest))
}

// So many items, at most as many as such a list takes, and what follows.
fn capped_items_at<X: Spelt>(
    alloc: Global,
    count: u8,
    bytes: &[u8],
) -> Result<(Capped<X>, &[u8]), FieldError>
    requires { count ≤ 32 }
    ensures { Gives (items_take X.reading X.taking count bytes.now)
        (λ read. (read.0, read.1.now)) result (items_at X.reading count bytes.now) }
{
    let mut items = Capped::new(alloc);
    let mut rest = bytes;
    for _ in 0..count {
        let (item, after) = X::read(alloc, rest)?;
        match items.push(item) {
            Ok(()) => rest = after,
            Err(PushStop::Full) => unreachable!(),
            Err(PushStop::NoMemory) => return Err(FieldError::NoMemory),
        }
    }
    Ok((items, rest))
}

// A count of this range and so many items, and what follows.
pub(crate) fn listed_at<X: Spelt>(
    alloc: Global,
    low: u8,
    high: u8,
    bytes: &[u8],
) -> Result<(Listed<X>, &[u8]), FieldError>
    ensures { Gives (counted_take low high X.reading X.taking bytes.now)
        (λ read. (read.0, read.1.now)) result (counted_at low high X.reading bytes.now) }
{
    let (count, rest) = byte_in(low, high, bytes)?;
    let (items, rest) = items_at(alloc, count, rest)?;
    Ok((Listed::from_vec(items), rest))
}

// A count from this one on and so many items, at most as many as such a list takes, and what follows.
pub(crate) fn capped_at<X: Spelt>(
    alloc: Global,
    low: u8,
    bytes: &[u8],
) -> Result<(Capped<X>, &[u8]), FieldError>
    ensures { Gives (counted_take low 32 X.reading X.taking bytes.now)
        (λ read. (read.0, read.1.now)) result (counted_at low 32 X.reading bytes.now) }
{
    let (count, rest) = byte_in(low, 32, bytes)?;
    capped_items_at(alloc, count, rest)
}

// Puts the count of the items and each of them behind what is there.
pub(crate) fn put_counted<X: Spelt>(out: &mut Vec<u8>, items: &[X]) -> Result<(), NoMemory>
    requires { length items.now ≤ 255 }
    ensures { OnOk result (out.new.items ≡ out.old.items ++ counted X.text items.now) }
{
    put_1(out, items.len() as u8)?;
    put_items(out, items)
}

// Puts each item behind what is there.
fn put_items<X: Spelt>(out: &mut Vec<u8>, items: &[X]) -> Result<(), NoMemory>
    ensures { OnOk result (out.new.items ≡ out.old.items ++ flat_map X.text items.now) }
{
    for item in items {
        item.put(out)?;
    }
    Ok(())
}
