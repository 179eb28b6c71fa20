//! A search that ended and can be gone on with: from one event, for one goal after the other.
//!
//! Contracts see a `Trail` as the cells that were found, its room, and the event from which all of them were found.

ghost use Rattle.std.specs.Prelude.{◌≡◌, ◌==◌, ◌≤◌, ◌+◌, ◌*◌, ◌++◌, true, false, Some, length};
ghost use Rattle.std.specs.List.{All};
ghost use Rattle.kr_order.specs.Order.{reach};
ghost use Rattle.dep_graph.specs.GraphView.{is_held};
ghost use Rattle.reach.specs.Search.{numbered, AreHeld};
ghost use Rattle.reach.specs.Trails.{IsTrail};
ghost use Rattle.reach.specs.Walk.{IsKept};

use crate::found::Found;
use crate::pairs::cell_of;
use crate::search::{go_on, is_source, walk};
use dep_graph::Graph;
use kr_order::{EventId, Steps};
use std::marker::Model;
use std::sync::ledger::Ledger;

/// What the last search found, where it ended without its goal. The next one from the same event goes on from there.
#[derive(Debug, Drop)]
pub struct Trail {
    pub(crate) found: Found,
    // the event of the last search, if it ended without its goal
    pub(crate) from: Option<EventId>,
}

impl Model for Trail {
    ghost use Rattle.reach.specs.Trails.{TrailView};

    ghost Value = { TrailView };

    ghost view = { λ t. record { cells = t.found.cells; room = t.found.room; from = t.from } };
}

impl Trail {
    // Whether the last search was from this event, and ended without its goal.
    fn is_from(&self, event: EventId) -> bool
        ensures { result ≡ true → self.now.from ≡ Some event }
    {
        match self.from {
            Some(from) => from.0 == event.0,
            None => false,
        }
    }

    // Whether a path leads from `a` to `b`, where the last search was from `a` and ended.
    fn goes_on<L: Ledger>(
        &mut self,
        graph: &Graph,
        extra: &[(EventId, EventId)],
        a: EventId,
        b: EventId,
        steps: &mut Steps<L>,
    ) -> bool
        requires fits { length graph.now.slots ≤ self.old.room }
        requires b { is_held graph.now.vertices b.0 ≡ true }
        requires apart { (a.0 == b.0) ≡ false }
        requires extra { All (AreHeld graph.now.vertices) extra.now }
        requires from { self.old.from ≡ Some a }
        requires kept { IsKept graph.now (graph.now.pairs ++ numbered extra.now) a.0 self.old.cells }
        ensures value { result ≡ reach (graph.now.pairs ++ numbered extra.now) a.0 b.0 }
        ensures trail { IsTrail graph.now (graph.now.pairs ++ numbered extra.now) self.new }
        ensures least { steps.old ≤ steps.new }
        ensures most { steps.new
            ≤ steps.old + (length graph.now.vertices * (1 + length extra.now) + length graph.now.pairs) }
        ensures room { self.new.room ≡ self.old.room }
    {
        graph.recall_graph();
        let cell = cell_of(graph, b);
        if self.found.has(cell) {
            return true;
        }
        self.from = None;
        if go_on(graph, extra, &mut self.found, a, b, steps) {
            return true;
        }
        self.from = Some(a);
        false
    }

    // Whether a path leads from `a` to `b`; the search begins anew.
    fn begins<L: Ledger>(
        &mut self,
        graph: &Graph,
        extra: &[(EventId, EventId)],
        a: EventId,
        b: EventId,
        steps: &mut Steps<L>,
    ) -> bool
        requires fits { length graph.now.slots ≤ self.old.room }
        requires a { is_held graph.now.vertices a.0 ≡ true }
        requires extra { All (AreHeld graph.now.vertices) extra.now }
        ensures value { result ≡ reach (graph.now.pairs ++ numbered extra.now) a.0 b.0 }
        ensures trail { IsTrail graph.now (graph.now.pairs ++ numbered extra.now) self.new }
        ensures least { steps.old ≤ steps.new }
        ensures most { steps.new
            ≤ steps.old + (length graph.now.vertices * (1 + length extra.now) + length graph.now.pairs) }
        ensures room { self.new.room ≡ self.old.room }
    {
        self.from = None;
        if walk(graph, extra, &mut self.found, a, b, steps) {
            return true;
        }
        self.from = Some(a);
        false
    }

    /// Whether a path of the graph's pairs and of the extra ones leads from `a` to `b`. Where the last search was from `a`,
    /// in the same graph, it goes on; there may be more extra pairs now. It takes no memory.
    pub fn reaches<L: Ledger>(
        &mut self,
        graph: &Graph,
        extra: &[(EventId, EventId)],
        a: EventId,
        b: EventId,
        steps: &mut Steps<L>,
    ) -> bool
        requires fits { length graph.now.slots ≤ self.old.room }
        requires a { is_held graph.now.vertices a.0 ≡ true }
        requires b { is_held graph.now.vertices b.0 ≡ true }
        requires extra { All (AreHeld graph.now.vertices) extra.now }
        requires trail { IsTrail graph.now (graph.now.pairs ++ numbered extra.now) self.old }
        ensures value { result ≡ reach (graph.now.pairs ++ numbered extra.now) a.0 b.0 }
        ensures trail { IsTrail graph.now (graph.now.pairs ++ numbered extra.now) self.new }
        ensures least { steps.old ≤ steps.new }
        ensures most { steps.new
            ≤ steps.old + (length graph.now.vertices * (1 + length extra.now) + length graph.now.pairs) }
        ensures room { self.new.room ≡ self.old.room }
    {
        if is_source(graph, extra, b) {
            return false;
        }
        if self.is_from(a) && a.0 != b.0 {
            return self.goes_on(graph, extra, a, b, steps);
        }
        self.begins(graph, extra, a, b, steps)
    }
}
