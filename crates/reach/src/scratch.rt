//! The memory that a search works in.
//!
//! Contracts see a `Scratch` as its room: how many cells a graph may have that is searched with it.

ghost use Rattle.std.specs.Prelude.{◌≡◌, ◌≤◌, None, length, OnOk, OnErr};

use crate::Trail;
use crate::found::Found;
use dep_graph::Graph;
use kr_order::NoMemory;
use std::alloc::Global;
use std::marker::Model;
use std::mem::replace;

/// The memory of a search, which one search after another can use.
#[derive(Debug, Drop)]
pub struct Scratch {
    pub(crate) found: Found,
}

impl Model for Scratch {
    ghost use Rattle.std.specs.Prelude.{ℕ};

    ghost Value = { ℕ };

    ghost view = { λ s. s.found.room };
}

impl Scratch {
    /// The scratch for a graph without cells. It takes no memory.
    pub fn new(alloc: Global) -> Self
        ensures { result ≡ 0 }
    {
        Scratch {
            found: Found::new(alloc),
        }
    }

    /// Makes room for the graph's cells. After `NoMemory` the room is as before.
    pub fn fit(&mut self, graph: &Graph) -> Result<(), NoMemory>
        ensures ok { OnOk result (length graph.now.slots ≤ self.new) }
        ensures room { self.old ≤ self.new }
        ensures err { OnErr result (self.new ≡ self.old) }
    {
        self.found.fit(graph.cells())
    }

    /// Makes a trail of its room; give it back by `take_back`. It takes no memory.
    pub fn lend(&mut self, alloc: Global) -> Trail
        ensures room { result.room ≡ self.old }
        ensures from { result.from ≡ None }
    {
        Trail {
            found: replace(&mut self.found, Found::new(alloc)),
            from: None,
        }
    }

    /// Takes the room of a trail.
    pub fn take_back(&mut self, trail: Trail)
        ensures { self.new ≡ trail.room }
    {
        self.found = trail.found;
    }
}
