//! The graph: its events, and for each its count of predecessors and its successors.

ghost use Rattle.std.specs.Prelude.{◌≡◌, ◌<◌, ◌≤◌, ◌+◌, ◌==◌, ℕ, [], ◌∷◌, ◌++◌, length, map, true, false, is_some, IsSome, IfSome};
ghost use Rattle.std.specs.Prelude.{IfNone, OnOk, Some, vec_capacity};
ghost use Rattle.std.specs.List.{All};
ghost use Rattle.slab.specs.Slab.{Slab as Cells};
ghost use Rattle.dep_graph.specs.GraphView.{is_held, event_at, outs_of, ins_of, without, pairs_without, bared_by, CanAdd, IsGraph};
ghost use Rattle.dep_graph.specs.Links.{IsDropped};

use crate::EventTable;
use crate::links::{rebuild, unlink};
use crate::outs::{Link, Outs};
use kr_order::{EventId, NoMemory};
use slab::Slab;
use std::alloc::Global;
use std::marker::Model;

// What is kept of an event.
#[derive(Clone, Copy, Debug)]
pub(crate) struct Cell {
    pub event: EventId,
    // how many pairs have the event as their second
    pub in_count: u64,
    // the index of the newest pair that has it as its first
    pub newest: Option<usize>,
}

/// The graph of events.
#[derive(Debug, Drop)]
pub struct Graph {
    // the key of each held event's cell
    keys: EventTable,
    cells: Slab<Cell>,
    // the pairs, the oldest first, with `None` where one was taken out
    links: Vec<Option<Link>>,
    // how many pairs there are
    count: usize,
    // the bare events; there is room for one more for each pair
    bare: Vec<u64>,
}

impl Model for Graph {
    ghost use Rattle.std.specs.Prelude.{◌-◌, min, map, vec_len};
    ghost use Rattle.std.specs.Vec.{vec_capacity};
    ghost use Rattle.dep_graph.specs.GraphView.{GraphView};
    ghost use Rattle.slab.specs.Slab.{slab_len};
    ghost use Rattle.dep_graph.specs.Links.{pairs_in, slots_of, IsSound, HasRoom};

    ghost Value = { GraphView };

    ghost view = { λ g. record {
      vertices = map (λ entry. entry.0) g.keys.entries;
      pairs = pairs_in g.links.items;
      bare = g.bare.items;
      spare_vertices = min g.keys.spare (g.cells.capacity - slab_len g.cells);
      spare_pairs = min (vec_capacity g.links - vec_len g.links) (vec_capacity g.bare - vec_len g.bare - g.count);
      slots = slots_of g.cells;
    } };

    ghost invariant = { λ g. IsSound g.keys.entries g.cells g.links.items g.bare.items
        × HasRoom g.links.items g.bare.items g.count (vec_capacity g.bare) };
}

impl Graph {
    /// The graph with no event. It takes no memory.
    pub fn new(alloc: Global) -> Self
        ensures vertices { result.vertices ≡ [] }
        ensures pairs { result.pairs ≡ [] }
        ensures bare { result.bare ≡ [] }
        ensures slots { result.slots ≡ [] }
    {
        Graph {
            keys: EventTable::new(alloc),
            cells: Slab::new(alloc),
            links: Vec::new(alloc),
            count: 0,
            bare: Vec::new(alloc),
        }
    }

    // Closes up the links.
    fn close(&mut self) -> Result<(), NoMemory>
        ensures vertices { self.new.vertices ≡ self.old.vertices }
        ensures pairs { self.new.pairs ≡ self.old.pairs }
        ensures bare { self.new.bare ≡ self.old.bare }
        ensures slots { self.new.slots ≡ self.old.slots }
        ensures spare_vertices { self.new.spare_vertices ≡ self.old.spare_vertices }
        ensures spare_pairs { self.old.spare_pairs ≤ self.new.spare_pairs }
    {
        let alloc = *self.links.allocator();
        let mut links = Vec::with_capacity(alloc, self.links.capacity())?;
        rebuild(&mut self.cells, self.links.as_slice(), &mut links);
        self.links = links;
        Ok(())
    }

    // Makes room for so many more events.
    fn reserve_vertices(&mut self, n: usize) -> Result<(), NoMemory>
        ensures spare_vertices { OnOk result (n ≤ self.new.spare_vertices) }
        ensures keeps_spare_vertices { self.old.spare_vertices ≤ self.new.spare_vertices }
        ensures spare_pairs { self.new.spare_pairs ≡ self.old.spare_pairs }
        ensures vertices { self.new.vertices ≡ self.old.vertices }
        ensures pairs { self.new.pairs ≡ self.old.pairs }
        ensures bare { self.new.bare ≡ self.old.bare }
        ensures slots { self.new.slots ≡ self.old.slots }
    {
        self.keys.reserve(n)?;
        self.cells.reserve(n)?;
        Ok(())
    }

    // Makes room for so many more pairs, and for each pair that there will be for an event that it makes bare.
    fn reserve_pairs(&mut self, n: usize) -> Result<(), NoMemory>
        ensures spare_pairs { OnOk result (n ≤ self.new.spare_pairs) }
        ensures keeps_spare_pairs { self.old.spare_pairs ≤ self.new.spare_pairs }
        ensures spare_vertices { self.new.spare_vertices ≡ self.old.spare_vertices }
        ensures vertices { self.new.vertices ≡ self.old.vertices }
        ensures pairs { self.new.pairs ≡ self.old.pairs }
        ensures bare { self.new.bare ≡ self.old.bare }
        ensures slots { self.new.slots ≡ self.old.slots }
    {
        let all = match self.count.checked_add(n) {
            Some(all) => all,
            None => return Err(NoMemory),
        };
        self.bare.reserve(all)?;
        self.links.reserve(n)?;
        Ok(())
    }

    /// Makes room for so many more events and pairs.
    pub fn reserve(&mut self, vertices: usize, pairs: usize) -> Result<(), NoMemory>
        ensures spare_vertices { OnOk result (vertices ≤ self.new.spare_vertices) }
        ensures spare_pairs { OnOk result (pairs ≤ self.new.spare_pairs) }
        ensures keeps_spare_vertices { self.old.spare_vertices ≤ self.new.spare_vertices }
        ensures keeps_spare_pairs { self.old.spare_pairs ≤ self.new.spare_pairs }
        ensures vertices { self.new.vertices ≡ self.old.vertices }
        ensures pairs { self.new.pairs ≡ self.old.pairs }
        ensures bare { self.new.bare ≡ self.old.bare }
        ensures slots { self.new.slots ≡ self.old.slots }
    {
        if self.count < self.links.len() / 2 {
            self.close()?;
        }
        self.reserve_vertices(vertices)?;
        self.reserve_pairs(pairs)
    }

    /// Takes in an event, with no pair. It takes no memory.
    pub fn add_vertex(&mut self, id: EventId)
        requires greatest { All (λ vertex. vertex < id.0) self.old.vertices }
        requires room { 1 ≤ self.old.spare_vertices }
        ensures vertices { self.new.vertices ≡ self.old.vertices ++ id.0 ∷ [] }
        ensures pairs { self.new.pairs ≡ self.old.pairs }
        ensures bare { self.new.bare ≡ self.old.bare }
        ensures cells { (cell event : ℕ) → event_at self.old.slots cell ≡ Some event → event_at self.new.slots cell ≡ Some event }
        ensures spare_vertices { self.old.spare_vertices ≤ self.new.spare_vertices + 1 }
        ensures spare_pairs { self.new.spare_pairs ≡ self.old.spare_pairs }
    {
        let key = self.cells.insert_reserved(Cell {
            event: id,
            in_count: 0,
            newest: None,
        });
        self.keys.push(id.0, key as u64);
    }

    /// Puts `a` before `b` by a pair. It takes no memory.
    pub fn add_pair(&mut self, a: EventId, b: EventId)
        requires fits { CanAdd self.old.vertices self.old.pairs a.0 b.0 }
        requires room { 1 ≤ self.old.spare_pairs }
        ensures pairs { self.new.pairs ≡ self.old.pairs ++ (a.0, b.0) ∷ [] }
        ensures vertices { self.new.vertices ≡ self.old.vertices }
        ensures bare { self.new.bare ≡ self.old.bare }
        ensures slots { self.new.slots ≡ self.old.slots }
        ensures spare_pairs { self.old.spare_pairs ≤ self.new.spare_pairs + 1 }
        ensures spare_vertices { self.new.spare_vertices ≡ self.old.spare_vertices }
    {
        let from = self.cell_of(a).unwrap();
        let to = self.cell_of(b).unwrap();
        let at = self.links.len();
        self.links.push_reserved(Some(Link {
            first: a,
            second: b,
            from,
            to,
            next: self.cells[from].newest,
        }));
        self.count += 1;
        self.cells[from].newest = Some(at);
        self.cells[to].in_count += 1;
    }

    // Takes out the newest pair of the event, whose cell is given. Whether it had one.
    fn drop_pair(&mut self, id: EventId, key: usize) -> bool
        requires { event_at self.old.slots key ≡ Some id.0 }
        ensures some { result ≡ true → IsDropped id.0 self.old.pairs self.new.pairs self.old.bare self.new.bare }
        ensures none { result ≡ false → outs_of self.old.pairs id.0 ≡ [] }
        ensures same { result ≡ false → self.new ≡ self.old }
        ensures vertices { self.new.vertices ≡ self.old.vertices }
        ensures slots { self.new.slots ≡ self.old.slots }
        ensures spare_vertices { self.new.spare_vertices ≡ self.old.spare_vertices }
        ensures spare_pairs { self.old.spare_pairs ≤ self.new.spare_pairs }
    {
        let link = match unlink(&mut self.cells, &mut self.links, key) {
            Some(link) => link,
            None => return false,
        };
        self.count -= 1;
        if self.cells[link.to].in_count == 0 {
            self.bare.push_reserved(link.second.0);
        }
        true
    }

    // Takes out all pairs of the event, whose cell is given.
    fn drop_pairs(&mut self, id: EventId, key: usize)
        requires { event_at self.old.slots key ≡ Some id.0 }
        ensures pairs { self.new.pairs ≡ pairs_without self.old.pairs id.0 }
        ensures none { outs_of self.new.pairs id.0 ≡ [] }
        ensures ins { ins_of self.new.pairs id.0 ≡ ins_of self.old.pairs id.0 }
        ensures bare { self.new.bare ≡ self.old.bare ++ bared_by self.old.pairs id.0 }
        ensures vertices { self.new.vertices ≡ self.old.vertices }
        ensures slots { self.new.slots ≡ self.old.slots }
        ensures spare_vertices { self.new.spare_vertices ≡ self.old.spare_vertices }
        ensures spare_pairs { self.old.spare_pairs ≤ self.new.spare_pairs }
    {
        let mut dropped = true;
        while dropped {
            dropped = self.drop_pair(id, key);
        }
    }

    // Takes out an event that has no pair, whose cell is given.
    fn remove_vertex(&mut self, id: EventId, key: usize)
        requires cell { event_at self.old.slots key ≡ Some id.0 }
        requires outs { outs_of self.old.pairs id.0 ≡ [] }
        requires ins { ins_of self.old.pairs id.0 ≡ 0 }
        requires apart { is_held self.old.bare id.0 ≡ false }
        ensures vertices { self.new.vertices ≡ without self.old.vertices id.0 }
        ensures pairs { self.new.pairs ≡ self.old.pairs }
        ensures bare { self.new.bare ≡ self.old.bare }
        ensures slots { length self.new.slots ≡ length self.old.slots }
        ensures spare_vertices { self.old.spare_vertices ≤ self.new.spare_vertices }
        ensures spare_pairs { self.new.spare_pairs ≡ self.old.spare_pairs }
    {
        self.cells.remove(key);
        self.keys.remove(id.0);
    }

    /// Takes out an event that has no predecessor, with its pairs. Each successor that it leaves without a
    /// predecessor is put behind the bare events. It takes no memory.
    pub fn remove_source(&mut self, id: EventId)
        requires held { is_held self.old.vertices id.0 ≡ true }
        requires source { ins_of self.old.pairs id.0 ≡ 0 }
        requires apart { is_held self.old.bare id.0 ≡ false }
        ensures vertices { self.new.vertices ≡ without self.old.vertices id.0 }
        ensures pairs { self.new.pairs ≡ pairs_without self.old.pairs id.0 }
        ensures bare { self.new.bare ≡ self.old.bare ++ bared_by self.old.pairs id.0 }
        ensures slots { length self.new.slots ≡ length self.old.slots }
        ensures spare_vertices { self.old.spare_vertices ≤ self.new.spare_vertices }
        ensures spare_pairs { self.old.spare_pairs ≤ self.new.spare_pairs }
    {
        self.recall_graph();
        let key = self.cell_of(id).unwrap();
        self.drop_pairs(id, key);
        self.remove_vertex(id, key);
    }

    /// The last bare event, which then is none; `None` where there is none. It takes no memory.
    pub fn take_bare(&mut self) -> Option<EventId>
        ensures some { IfSome result (λ id. self.old.bare ≡ self.new.bare ++ id.0 ∷ []) }
        ensures none { IfNone result (self.old.bare ≡ []) }
        ensures same { IfNone result (self.new ≡ self.old) }
        ensures vertices { self.new.vertices ≡ self.old.vertices }
        ensures pairs { self.new.pairs ≡ self.old.pairs }
        ensures slots { self.new.slots ≡ self.old.slots }
        ensures spare_vertices { self.new.spare_vertices ≡ self.old.spare_vertices }
        ensures spare_pairs { self.old.spare_pairs ≤ self.new.spare_pairs }
    {
        match self.bare.pop() {
            Some(event) => Some(EventId(event)),
            None => None,
        }
    }

    /// The cell of the event; `None` where it is not held.
    pub fn cell_of(&self, id: EventId) -> Option<usize>
        ensures found { IfSome result (λ cell. event_at self.now.slots cell ≡ Some id.0) }
        ensures held { is_some result ≡ is_held self.now.vertices id.0 }
    {
        match self.keys.get(id.0) {
            Some(key) => Some(key as usize),
            None => None,
        }
    }

    /// Whether the event is held.
    pub fn has(&self, id: EventId) -> bool
        ensures { result ≡ is_held self.now.vertices id.0 }
    {
        self.cell_of(id).is_some()
    }

    /// How many pairs have the event as their second.
    pub fn in_count(&self, id: EventId) -> u64
        requires { is_held self.now.vertices id.0 ≡ true }
        ensures { result ≡ ins_of self.now.pairs id.0 }
    {
        let key = self.cell_of(id).unwrap();
        self.cells[key].in_count
    }

    /// The successors of the event in the cell.
    pub fn outs_at(&self, cell: usize) -> Outs<'_>
        requires { IsSome (event_at self.now.slots cell) }
        ensures events { (event : ℕ) → event_at self.now.slots cell ≡ Some event → map (λ out. out.1) result
            ≡ outs_of self.now.pairs event }
        ensures cells { All (λ out. event_at self.now.slots out.0 ≡ Some out.1) result }
    {
        Outs::new(self.links.as_slice(), self.cells[cell].newest)
    }

    /// The successors of the event.
    pub fn outs(&self, id: EventId) -> Outs<'_>
        requires { is_held self.now.vertices id.0 ≡ true }
        ensures events { map (λ out. out.1) result ≡ outs_of self.now.pairs id.0 }
        ensures cells { All (λ out. event_at self.now.slots out.0 ≡ Some out.1) result }
    {
        let cell = self.cell_of(id).unwrap();
        self.outs_at(cell)
    }

    /// How many events are held.
    pub fn held(&self) -> u64
        ensures { result ≡ length self.now.vertices }
    {
        self.keys.len() as u64
    }

    /// How many pairs are held.
    pub fn pairs_held(&self) -> u64
        ensures { result ≡ length self.now.pairs }
    {
        self.count as u64
    }

    /// A number that all cells are below.
    pub fn cells(&self) -> usize
        ensures { length self.now.slots ≤ result }
    {
        self.cells.capacity()
    }

    /// A proof step, which does nothing when it runs: what holds of every graph.
    pub fn recall_graph(&self)
        ensures { IsGraph self.now }
    {
        self.keys.recall_rising();
    }
}
