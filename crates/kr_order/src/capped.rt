//! The list type with a greatest length, behind the pairs of a batch and of a query. Contracts see a list as
//! the list of its items, of which there are at most `MOST_PAIRS`.

ghost use Rattle.std.specs.Prelude.{◌≡◌, ◌≤◌, ◌↔◌, [], ◌∷◌, ◌++◌, length, slice_get, Err, IfOk, OnOk, OnErr};
ghost use Rattle.std.specs.Option.{option_copied};

use crate::{Copied, Listed, NoMemory};
use std::alloc::Global;
use std::marker::Model;
use thiserror::Error;

/// The greatest number of pairs in a batch, and in a query.
pub const MOST_PAIRS: usize = 32;

/// Why an item is not taken.
#[derive(Clone, Copy, Debug, PartialEq, Eq, Error)]
pub enum PushStop {
    #[error("the list is full")]
    Full,
    #[error("out of memory")]
    NoMemory,
}

impl From<NoMemory> for PushStop {
    ghost use Rattle.kr_order.specs.declared.capped.PushStop.TheVariants.{NoMemory as OutOfMemory};

    ghost from_gives = { λ _ stop. stop ≡ OutOfMemory };

    fn from(_: NoMemory) -> Self {
        PushStop::NoMemory
    }
}

/// A list of at most `MOST_PAIRS` items that grows at its end.
#[derive(Debug, Drop)]
pub struct Capped<T> {
    list: Listed<T>,
}

impl<T> Model for Capped<T> {
    ghost use Rattle.std.specs.Prelude.{◌≤◌, List, length};
    ghost use Rattle.std.specs.Coded.{coded_list};

    ghost Value = { List T };

    ghost coded = { coded_list T.code };

    ghost view = { λ capped. capped.list };

    ghost invariant = { λ capped. length capped.list ≤ 32 };
}

impl<T> Capped<T> {
    /// The empty list. It takes no memory.
    pub fn new(alloc: Global) -> Self
        ensures { result ≡ [] }
    {
        Capped {
            list: Listed::new(alloc),
        }
    }

    /// How many items the list has.
    pub fn len(&self) -> usize
        ensures value { result ≡ length self.now }
        ensures most { result ≤ MOST_PAIRS }
    {
        self.list.len()
    }

    /// The item at an index from 0; `None` where the index is not below the length.
    pub fn get(&self, i: usize) -> Option<&T>
        ensures { option_copied result ≡ slice_get self.now i }
    {
        self.list.get(i)
    }

    /// The items as a slice.
    pub fn as_slice(&self) -> &[T]
        ensures value { result.now ≡ self.now }
        ensures most { length result.now ≤ MOST_PAIRS }
    {
        self.list.as_slice()
    }

    /// Puts an item at the end. After an error the list is as before, and the item is dropped.
    pub fn push(&mut self, item: T) -> Result<(), PushStop>
    where
        T: Drop,
        ensures ok { OnOk result (self.new ≡ self.old ++ item ∷ []) }
        ensures full { (result ≡ Err PushStop.Full) ↔ (length self.old ≡ MOST_PAIRS) }
        ensures err { OnErr result (self.new ≡ self.old) }
    {
        if self.list.len() == MOST_PAIRS {
            return Err(PushStop::Full);
        }
        self.list.push(item)?;
        Ok(())
    }
}

impl<T: Copied + Drop> Capped<T> {
    /// An equal list, over the same allocator.
    pub fn copy(&self) -> Result<Self, NoMemory>
        ensures { IfOk result (λ copy. copy ≡ self.now) }
    {
        Ok(Capped {
            list: self.list.copy()?,
        })
    }
}
