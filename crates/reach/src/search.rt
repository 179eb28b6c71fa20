//! Whether a path of pairs leads from one event to another.

ghost use Rattle.std.specs.Prelude.{◌≡◌, ◌<◌, ◌≤◌, ◌+◌, ◌*◌, ◌++◌, ◌==◌, ℕ, true, false, length, take};
ghost use Rattle.std.specs.List.{All};
ghost use Rattle.kr_order.specs.Prefix.{IsPrefix};
ghost use Rattle.kr_order.specs.Order.{reach};
ghost use Rattle.kr_order.specs.Answer.{answer_over};
ghost use Rattle.dep_graph.specs.GraphView.{is_held};
ghost use Rattle.reach.specs.Search.{numbered, AreHeld};
ghost use Rattle.reach.specs.Finds.{is_in};
ghost use Rattle.reach.specs.Walk.{events_in, ArePlaced, LeadsTo, Meets, AreFollowed, IsUnderWay, IsKept, steps_before, steps_in};

use crate::Scratch;
use crate::found::Found;
use crate::pairs::{cell_of, follow, follow_each};
use dep_graph::Graph;
use kr_order::{Answer, EventId, Steps};
use std::sync::ledger::Ledger;

// Takes up the events that were found, from an index on, until one has a pair to the goal. Whether one has.
fn search<L: Ledger>(
    graph: &Graph,
    found: &mut Found,
    from: usize,
    goal: EventId,
    steps: &mut Steps<L>,
) -> bool
    requires fits { length graph.now.slots ≤ found.old.room }
    requires from { from ≤ length found.old.cells }
    requires placed { ArePlaced graph.now.slots found.old.cells }
    requires followed { AreFollowed graph.now.pairs goal.0
        (take from (events_in graph.now found.old)) (events_in graph.now found.old) }
    ensures met { result ≡ true → Meets graph.now.pairs (events_in graph.now found.old) goal.0 }
    ensures leads { result ≡ false
        → LeadsTo graph.now.pairs (events_in graph.now found.old) (events_in graph.now found.new) }
    ensures followed { result ≡ false
        → AreFollowed graph.now.pairs goal.0
        (events_in graph.now found.new) (events_in graph.now found.new) }
    ensures front { IsPrefix found.old.cells found.new.cells }
    ensures placed { ArePlaced graph.now.slots found.new.cells }
    ensures room { found.new.room ≡ found.old.room }
    ensures least { from < length found.old.cells → steps.old < steps.new }
    ensures most { steps.new + steps_before graph.now found.old from
        ≤ steps.old + steps_in graph.now found.new }
    ensures each { result ≡ false
        → steps.new + steps_before graph.now found.old from ≡ steps.old + steps_in graph.now found.new }
{
    let mut next = from;
    while next < found.len() {
        steps.tick(); // an event is taken up
        let cell = found.at(next);
        if follow(graph, found, cell, goal, steps) {
            return true;
        }
        next += 1;
    }
    false
}

// Whether one of the pairs leads to the goal.
fn lead_to(pairs: &[(EventId, EventId)], goal: EventId) -> bool
    ensures { result ≡ false → All (λ pair. (pair.1 == goal.0) ≡ false) (numbered pairs.now) }
{
    for pair in pairs {
        if pair.1.0 == goal.0 {
            return true;
        }
    }
    false
}

// Whether no pair leads to the goal: neither one of the graph nor one of the others.
pub(crate) fn is_source(graph: &Graph, extra: &[(EventId, EventId)], goal: EventId) -> bool
    requires { is_held graph.now.vertices goal.0 ≡ true }
    ensures { result ≡ true → (a : ℕ) → reach (graph.now.pairs ++ numbered extra.now) a goal.0 ≡ false }
{
    graph.in_count(goal) == 0 && !lead_to(extra, goal)
}

// Goes on with a search for a path of the graph's pairs and of more from `a` to `b`. The graph's pairs are searched first;
// where they end, each of the others is followed once, and where one finds an event, the search goes on from there.
fn walk_on<L: Ledger>(
    graph: &Graph,
    extra: &[(EventId, EventId)],
    found: &mut Found,
    from: usize,
    a: EventId,
    b: EventId,
    steps: &mut Steps<L>,
) -> bool
    requires fits { length graph.now.slots ≤ found.old.room }
    requires extra { All (AreHeld graph.now.vertices) extra.now }
    requires under_way { IsUnderWay graph.now (numbered extra.now) a.0 b.0 found.old.cells from }
    ensures value { result ≡ reach (graph.now.pairs ++ numbered extra.now) a.0 b.0 }
    ensures kept { result ≡ false → IsKept graph.now (graph.now.pairs ++ numbered extra.now) a.0 found.new.cells }
    ensures least { steps.old ≤ steps.new }
    ensures more { from < length found.old.cells → steps.old < steps.new }
    ensures most { (start : ℕ) → steps.old ≤ start + steps_before graph.now found.old from + from * length extra.now
        → steps.new ≤ start + (length graph.now.vertices * (1 + length extra.now) + length graph.now.pairs) }
    ensures room { found.new.room ≡ found.old.room }
{
    graph.recall_graph();
    let mut next = from;
    while next < found.len() {
        if search(graph, found, next, b, steps) {
            return true;
        }
        next = found.len();
        if follow_each(graph, extra, found, b, steps) {
            return true;
        }
    }
    false
}

// Searches for a path of the graph's pairs and of more from `a` to `b`.
pub(crate) fn walk<L: Ledger>(
    graph: &Graph,
    extra: &[(EventId, EventId)],
    found: &mut Found,
    a: EventId,
    b: EventId,
    steps: &mut Steps<L>,
) -> bool
    requires fits { length graph.now.slots ≤ found.old.room }
    requires a { is_held graph.now.vertices a.0 ≡ true }
    requires extra { All (AreHeld graph.now.vertices) extra.now }
    ensures value { result ≡ reach (graph.now.pairs ++ numbered extra.now) a.0 b.0 }
    ensures kept { result ≡ false → IsKept graph.now (graph.now.pairs ++ numbered extra.now) a.0 found.new.cells }
    ensures least { steps.old < steps.new }
    ensures most { steps.new
        ≤ steps.old + (length graph.now.vertices * (1 + length extra.now) + length graph.now.pairs) }
    ensures room { found.new.room ≡ found.old.room }
{
    found.clear();
    found.add(cell_of(graph, a));
    walk_on(graph, extra, found, 0, a, b, steps)
}

// The same, where what lies behind `a` by the graph's pairs was found by an earlier search, and `b` was not.
pub(crate) fn go_on<L: Ledger>(
    graph: &Graph,
    extra: &[(EventId, EventId)],
    found: &mut Found,
    a: EventId,
    b: EventId,
    steps: &mut Steps<L>,
) -> bool
    requires fits { length graph.now.slots ≤ found.old.room }
    requires extra { All (AreHeld graph.now.vertices) extra.now }
    requires kept { IsKept graph.now (graph.now.pairs ++ numbered extra.now) a.0 found.old.cells }
    requires out { is_in (events_in graph.now found.old) b.0 ≡ false }
    ensures value { result ≡ reach (graph.now.pairs ++ numbered extra.now) a.0 b.0 }
    ensures kept { result ≡ false → IsKept graph.now (graph.now.pairs ++ numbered extra.now) a.0 found.new.cells }
    ensures least { steps.old ≤ steps.new }
    ensures most { steps.new
        ≤ steps.old + (length graph.now.vertices * (1 + length extra.now) + length graph.now.pairs) }
    ensures room { found.new.room ≡ found.old.room }
{
    graph.recall_graph();
    let next = found.len();
    if follow_each(graph, extra, found, b, steps) {
        return true;
    }
    walk_on(graph, extra, found, next, a, b, steps)
}

// Whether a path of the graph's pairs and of more leads from `a` to `b`. No event is taken up where no pair leads to `b`.
fn has_path<L: Ledger>(
    graph: &Graph,
    extra: &[(EventId, EventId)],
    found: &mut Found,
    a: EventId,
    b: EventId,
    steps: &mut Steps<L>,
) -> bool
    requires fits { length graph.now.slots ≤ found.old.room }
    requires a { is_held graph.now.vertices a.0 ≡ true }
    requires b { is_held graph.now.vertices b.0 ≡ true }
    requires extra { All (AreHeld graph.now.vertices) extra.now }
    ensures value { result ≡ reach (graph.now.pairs ++ numbered extra.now) a.0 b.0 }
    ensures least { steps.old < steps.new }
    ensures most { steps.new
        ≤ steps.old + (length graph.now.vertices * (1 + length extra.now) + length graph.now.pairs) }
    ensures room { found.new.room ≡ found.old.room }
{
    if is_source(graph, extra, b) {
        steps.tick(); // the goal is looked at
        return false;
    }
    walk(graph, extra, found, a, b, steps)
}

/// Whether a path of the graph's pairs leads from `a` to `b`. It takes no memory.
pub fn reaches<L: Ledger>(
    graph: &Graph,
    scratch: &mut Scratch,
    a: EventId,
    b: EventId,
    steps: &mut Steps<L>,
) -> bool
    requires fits { length graph.now.slots ≤ scratch.old }
    requires a { is_held graph.now.vertices a.0 ≡ true }
    requires b { is_held graph.now.vertices b.0 ≡ true }
    ensures value { result ≡ reach graph.now.pairs a.0 b.0 }
    ensures least { steps.old < steps.new }
    ensures most { steps.new ≤ steps.old + (length graph.now.vertices + length graph.now.pairs) }
    ensures room { scratch.new ≡ scratch.old }
{
    has_path(graph, &[], &mut scratch.found, a, b, steps)
}

/// Whether a path of the graph's pairs and of the extra ones leads from `a` to `b`. It takes no memory.
pub fn reaches_with<L: Ledger>(
    graph: &Graph,
    extra: &[(EventId, EventId)],
    scratch: &mut Scratch,
    a: EventId,
    b: EventId,
    steps: &mut Steps<L>,
) -> bool
    requires fits { length graph.now.slots ≤ scratch.old }
    requires a { is_held graph.now.vertices a.0 ≡ true }
    requires b { is_held graph.now.vertices b.0 ≡ true }
    requires extra { All (AreHeld graph.now.vertices) extra.now }
    ensures value { result ≡ reach (graph.now.pairs ++ numbered extra.now) a.0 b.0 }
    ensures least { steps.old < steps.new }
    ensures most { steps.new
        ≤ steps.old + (length graph.now.vertices * (1 + length extra.now) + length graph.now.pairs) }
    ensures room { scratch.new ≡ scratch.old }
{
    has_path(graph, extra, &mut scratch.found, a, b, steps)
}

/// How `a` stands to `b` in the order of the graph's pairs. It takes no memory.
pub fn answer_over<L: Ledger>(
    graph: &Graph,
    scratch: &mut Scratch,
    a: EventId,
    b: EventId,
    steps: &mut Steps<L>,
) -> Answer
    requires fits { length graph.now.slots ≤ scratch.old }
    requires a { is_held graph.now.vertices a.0 ≡ true }
    requires b { is_held graph.now.vertices b.0 ≡ true }
    ensures value { result ≡ answer_over graph.now.pairs a.0 b.0 }
    ensures most { steps.new
        ≤ steps.old + 2 * (length graph.now.vertices + length graph.now.pairs) }
    ensures room { scratch.new ≡ scratch.old }
{
    if a.0 == b.0 {
        Answer::Same
    } else if reaches(graph, scratch, a, b, steps) {
        Answer::Before
    } else if reaches(graph, scratch, b, a, steps) {
        Answer::After
    } else {
        Answer::Concurrent
    }
}
