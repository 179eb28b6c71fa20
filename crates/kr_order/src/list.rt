//! The list type behind all named lists. Contracts see a list as the list of its items.

ghost use Rattle.std.specs.Prelude.{◌≡◌, [], ◌∷◌, ◌++◌, length, slice_get, IfOk, OnOk, OnErr};
ghost use Rattle.std.specs.Option.{option_copied};

use crate::{DoneEntry, Entry, NoMemory, Packet, ServerId};
use std::alloc::Global;
use std::marker::Model;

/// A value that can be copied where there is memory for the copy.
pub trait Copied {
    /// An equal value.
    fn copy(&self, alloc: Global) -> Result<Self, NoMemory>
    where
        Self: Sized,
        ensures { IfOk result (λ copy. copy ≡ self.now) };
}

/// A list that grows at its end, and keeps the allocator that it was made with.
#[derive(Debug, Drop)]
pub struct Listed<T> {
    items: Vec<T>,
}

impl<T> Model for Listed<T> {
    ghost use Rattle.std.specs.Prelude.{List};
    ghost use Rattle.std.specs.Coded.{coded_list};

    ghost Value = { List T };

    ghost coded = { coded_list T.code };

    ghost view = { λ list. list.items.items };
}

impl<T> Listed<T> {
    /// The empty list. It takes no memory.
    pub fn new(alloc: Global) -> Self
        ensures { result ≡ [] }
    {
        Listed {
            items: Vec::new(alloc),
        }
    }

    /// The list of a vector's items. It takes no memory.
    pub fn from_vec(items: Vec<T>) -> Self
        ensures { result ≡ items.items }
    {
        Listed { items }
    }

    /// How many items the list has.
    pub fn len(&self) -> usize
        ensures { result ≡ length self.now }
    {
        self.items.len()
    }

    /// The item at an index from 0; `None` where the index is not below the length.
    pub fn get(&self, i: usize) -> Option<&T>
        ensures { option_copied result ≡ slice_get self.now i }
    {
        self.items.get(i)
    }

    /// The items as a slice.
    pub fn as_slice(&self) -> &[T]
        ensures { result.now ≡ self.now }
    {
        self.items.as_slice()
    }

    /// Puts an item at the end. After `NoMemory` the list is as before, and the item is dropped.
    pub fn push(&mut self, item: T) -> Result<(), NoMemory>
    where
        T: Drop,
        ensures ok { OnOk result (self.new ≡ self.old ++ item ∷ []) }
        ensures err { OnErr result (self.new ≡ self.old) }
    {
        self.items.push(item)?;
        Ok(())
    }

    /// Moves all items of the other list to the end, and takes that list's memory where this one is empty. After
    /// `NoMemory` the list is as before, and the other list's items are dropped.
    pub fn append(&mut self, mut more: Listed<T>) -> Result<(), NoMemory>
    where
        T: Drop,
        ensures ok { OnOk result (self.new ≡ self.old ++ more) }
        ensures err { OnErr result (self.new ≡ self.old) }
    {
        if self.items.is_empty() {
            self.items = more.items;
            return Ok(());
        }
        self.items.append(&mut more.items)?;
        Ok(())
    }
}

impl<T: Copied + Drop> Listed<T> {
    /// An equal list, over the same allocator.
    pub fn copy(&self) -> Result<Self, NoMemory>
        ensures { IfOk result (λ copy. copy ≡ self.now) }
    {
        let alloc = *self.items.allocator();
        let mut copy = Listed {
            items: Vec::with_capacity(alloc, self.items.len())?,
        };
        for item in self.items.iter() {
            copy.push(item.copy(alloc)?)?;
        }
        Ok(copy)
    }
}

/// Entries, in the order of their places.
pub type Entries = Listed<Entry>;

/// Servers, in the order of a chain.
pub type Servers = Listed<ServerId>;

/// Entries with their places and replies, in the order of their places.
pub type DoneList = Listed<DoneEntry>;

/// Packets, in the order in which they are sent.
pub type Packets = Listed<Packet>;
