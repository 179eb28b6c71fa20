//! The cells that a search has found, each once.
//!
//! Contracts see a `Found` as the list of these cells, the first found first, and as how many cells there is room
//! for; each cell is a number below that. Emptying it leaves its marks as they are, but for once in 2^64 times.

ghost use Rattle.std.specs.Prelude.{◌≡◌, ◌<◌, ◌≤◌, [], length, slice_index, OnOk, OnErr};
ghost use Rattle.reach.specs.Finds.{is_in, with};

use kr_order::NoMemory;
use std::alloc::Global;
use std::marker::Model;

/// The cells that a search has found.
#[derive(Debug, Drop)]
pub struct Found {
    // by cell, the number of the last search that found it
    marks: Vec<u64>,
    // the number of this search, from 1
    number: u64,
    cells: Vec<usize>,
}

impl Model for Found {
    ghost use Rattle.std.specs.Prelude.{length};
    ghost use Rattle.std.specs.Vec.{vec_capacity};
    ghost use Rattle.reach.specs.Finds.{Finds, IsMarked};

    ghost Value = { Finds };

    ghost view = { λ f. record { cells = f.cells.items; room = length f.marks.items } };

    ghost invariant = { λ f. IsMarked f.marks.items f.number f.cells.items (vec_capacity f.cells) };
}

impl Found {
    /// No cells, and no room. It takes no memory.
    pub fn new(alloc: Global) -> Self
        ensures cells { result.cells ≡ [] }
        ensures room { result.room ≡ 0 }
    {
        Found {
            marks: Vec::new(alloc),
            number: 1,
            cells: Vec::new(alloc),
        }
    }

    /// Makes room for so many cells.
    pub fn fit(&mut self, room: usize) -> Result<(), NoMemory>
        ensures ok { OnOk result (room ≤ self.new.room) }
        ensures room { self.old.room ≤ self.new.room }
        ensures cells { self.new.cells ≡ self.old.cells }
        ensures err { OnErr result (self.new ≡ self.old) }
    {
        self.cells.reserve(room.saturating_sub(self.cells.len()))?;
        if self.marks.len() < room {
            self.marks.resize(room, 0)?;
        }
        Ok(())
    }

    /// Takes all cells out.
    pub fn clear(&mut self)
        ensures cells { self.new.cells ≡ [] }
        ensures room { self.new.room ≡ self.old.room }
    {
        if self.number == u64::MAX {
            self.marks.fill(0);
            self.number = 0;
        }
        self.number += 1;
        self.cells.clear();
    }

    /// How many cells were found.
    pub fn len(&self) -> usize
        ensures value { result ≡ length self.now.cells }
        ensures few { length self.now.cells ≤ self.now.room }
    {
        self.cells.len()
    }

    /// The cell at an index.
    pub fn at(&self, i: usize) -> usize
        requires { i < length self.now.cells }
        ensures value { result ≡ slice_index self.now.cells i }
        ensures room { result < self.now.room }
    {
        self.cells[i]
    }

    /// Whether the cell was found.
    pub fn has(&self, cell: usize) -> bool
        requires { cell < self.now.room }
        ensures { result ≡ is_in self.now.cells cell }
    {
        self.marks[cell] == self.number
    }

    /// Puts the cell behind the others where it was not found yet.
    pub fn add(&mut self, cell: usize)
        requires { cell < self.old.room }
        ensures cells { self.new.cells ≡ with self.old.cells cell }
        ensures room { self.new.room ≡ self.old.room }
    {
        if self.marks[cell] != self.number {
            self.marks[cell] = self.number;
            self.cells.push_reserved(cell);
        }
    }
}
