//! What one look at pairs adds to the events that a search has found.

ghost use Rattle.std.specs.Prelude.{◌≡◌, ◌<◌, ◌≤◌, ◌+◌, ◌&&◌, ◌==◌, true, false, length, Some, IsSome, IfSome};
ghost use Rattle.std.specs.List.{All};
ghost use Rattle.kr_order.specs.Prefix.{IsPrefix};
ghost use Rattle.dep_graph.specs.GraphView.{is_held, event_at};
ghost use Rattle.reach.specs.Finds.{is_in, with_all};
ghost use Rattle.reach.specs.Search.{numbered, AreHeld};
ghost use Rattle.reach.specs.Walk.{events_in, outs_at, ArePlaced, LeadsTo, Meets, AreFollowed, led_by};

use crate::found::Found;
use dep_graph::Graph;
use kr_order::{EventId, Steps};
use std::sync::ledger::Ledger;

/// The cell of a held event.
pub fn cell_of(graph: &Graph, id: EventId) -> usize
    requires { is_held graph.now.vertices id.0 ≡ true }
    ensures event { event_at graph.now.slots result ≡ Some id.0 }
    ensures below { result < length graph.now.slots }
{
    graph.cell_of(id).unwrap()
}

/// Looks at the pairs of the event in the cell, up to one that leads to the goal. Whether there is one.
pub fn follow<L: Ledger>(
    graph: &Graph,
    found: &mut Found,
    cell: usize,
    goal: EventId,
    steps: &mut Steps<L>,
) -> bool
    requires fits { length graph.now.slots ≤ found.old.room }
    requires cell { IsSome (event_at graph.now.slots cell) }
    requires placed { ArePlaced graph.now.slots found.old.cells }
    ensures value { result ≡ is_in (outs_at graph.now cell) goal.0 }
    ensures found { result ≡ false
        → events_in graph.now found.new ≡ with_all (events_in graph.now found.old) (outs_at graph.now cell) }
    ensures front { IsPrefix found.old.cells found.new.cells }
    ensures placed { ArePlaced graph.now.slots found.new.cells }
    ensures room { found.new.room ≡ found.old.room }
    ensures least { steps.old ≤ steps.new }
    ensures most { steps.new ≤ steps.old + length (outs_at graph.now cell) }
    ensures each { result ≡ false → steps.new ≡ steps.old + length (outs_at graph.now cell) }
{
    graph.recall_graph();
    for out in graph.outs_at(cell) {
        steps.tick(); // a pair is looked at
        if out.event.0 == goal.0 {
            return true;
        }
        found.add(out.cell);
    }
    false
}

// Whether the pair's first event was found. It is not looked up where it is an event that is known to be.
fn has_first(
    graph: &Graph,
    pair: &(EventId, EventId),
    found: &Found,
    known: Option<EventId>,
) -> bool
    requires fits { length graph.now.slots ≤ found.now.room }
    requires held { AreHeld graph.now.vertices pair.now }
    requires placed { ArePlaced graph.now.slots found.now.cells }
    requires known { IfSome known (λ event. is_in (events_in graph.now found.now) event.0 ≡ true) }
    ensures { result ≡ is_in (events_in graph.now found.now) pair.now.0.0 }
{
    graph.recall_graph();
    if let Some(event) = known {
        if event.0 == pair.0.0 {
            return true;
        }
    }
    let first = cell_of(graph, pair.0);
    found.has(first)
}

// Follows the pair where its first event was found, unless it leads to the goal. Whether it does. That event is known to be
// found from then on.
fn follow_pair(
    graph: &Graph,
    pair: &(EventId, EventId),
    found: &mut Found,
    known: &mut Option<EventId>,
    goal: EventId,
) -> bool
    requires fits { length graph.now.slots ≤ found.old.room }
    requires held { AreHeld graph.now.vertices pair.now }
    requires placed { ArePlaced graph.now.slots found.old.cells }
    requires known { IfSome known.old (λ event. is_in (events_in graph.now found.old) event.0 ≡ true) }
    ensures value { result
        ≡ (is_in (events_in graph.now found.old) pair.now.0.0 && pair.now.1.0 == goal.0) }
    ensures found { result ≡ false
        → events_in graph.now found.new ≡ led_by (pair.now.0.0, pair.now.1.0) (events_in graph.now found.old) }
    ensures front { IsPrefix found.old.cells found.new.cells }
    ensures placed { ArePlaced graph.now.slots found.new.cells }
    ensures room { found.new.room ≡ found.old.room }
    ensures known { IfSome known.new (λ event. is_in (events_in graph.now found.new) event.0 ≡ true) }
{
    graph.recall_graph();
    if !has_first(graph, pair, found, *known) {
        return false;
    }
    *known = Some(pair.0);
    if pair.1.0 == goal.0 {
        return true;
    }
    let second = cell_of(graph, pair.1);
    found.add(second);
    false
}

/// Follows each of the pairs once, in their order, up to one that leads to the goal. Whether there is one.
pub fn follow_each<L: Ledger>(
    graph: &Graph,
    pairs: &[(EventId, EventId)],
    found: &mut Found,
    goal: EventId,
    steps: &mut Steps<L>,
) -> bool
    requires fits { length graph.now.slots ≤ found.old.room }
    requires held { All (AreHeld graph.now.vertices) pairs.now }
    requires placed { ArePlaced graph.now.slots found.old.cells }
    ensures met { result ≡ true
        → Meets (numbered pairs.now) (events_in graph.now found.old) goal.0 }
    ensures leads { result ≡ false
        → LeadsTo (numbered pairs.now) (events_in graph.now found.old) (events_in graph.now found.new) }
    ensures followed { result ≡ false → length found.new.cells ≡ length found.old.cells
        → AreFollowed (numbered pairs.now) goal.0 (events_in graph.now found.new) (events_in graph.now found.new) }
    ensures front { IsPrefix found.old.cells found.new.cells }
    ensures placed { ArePlaced graph.now.slots found.new.cells }
    ensures room { found.new.room ≡ found.old.room }
    ensures least { steps.old ≤ steps.new }
    ensures most { steps.new ≤ steps.old + length pairs.now }
    ensures each { result ≡ false → steps.new ≡ steps.old + length pairs.now }
{
    let mut known = None;
    for pair in pairs {
        steps.tick();
        if follow_pair(graph, pair, found, &mut known, goal) {
            return true;
        }
    }
    false
}
