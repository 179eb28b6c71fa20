//! A batch over a small order is planned and done. What batches are told is shown by worked histories and by scripts.

ghost use Rattle.std.specs.Prelude.{◌≡◌, ◌<◌, IfOk};
ghost use Rattle.batch_assign.specs.Plan.{LiveAreHeld};

use batch_assign::*;
use dep_graph::Graph;
use kr_order::{Batch, EventId, Kind, NoMemory, Pair, PushStop, Steps};
use reach::Scratch;
use ref_collect::Refs;
use std::alloc::Global;
use std::marker::Brand;
use std::sync::ledger::{Blank, Ledger};
use std::test::Fail;

// A batch of one pair: 1 is wished to be before itself.
fn batch(alloc: Global) -> Result<Batch, PushStop> {
    let mut batch = Batch::new(alloc);
    batch.push(Pair {
        first: EventId(1),
        second: EventId(1),
        kind: Kind::Prefer,
    })?;
    Ok(batch)
}

// Event 1 alone.
fn events(alloc: Global) -> Result<(Graph, Refs), NoMemory>
    ensures { IfOk result (λ both. LiveAreHeld both.1.counts both.0.vertices) }
{
    let mut graph = Graph::new(alloc);
    let mut refs = Refs::new(alloc);
    graph.reserve(1, 0)?;
    refs.reserve(1)?;
    graph.add_vertex(EventId(1));
    refs.birth(EventId(1));
    Ok((graph, refs))
}

// How many pairs the graph has after the batch, and how many outcomes it has.
fn done<L: Ledger>(alloc: Global, blank: Blank) -> Result<(u64, usize), Fail>
    requires name { blank.name ≡ L.name }
    requires parts { blank.parts ≡ L.parts }
    requires some { 0 < blank.parts }
{
    let (mut graph, refs) = events(alloc)?;
    let mut scratch = Scratch::new(alloc);
    scratch.fit(&graph)?;
    let mut steps = Steps::<L>::new(blank);
    let batch = batch(alloc)?;
    let plan = plan(alloc, &graph, &refs, &batch, &mut scratch, &mut steps)?;
    graph.reserve(0, plan.adds.len())?;
    let outcomes = commit(&mut graph, plan);
    Ok((graph.pairs_held(), outcomes.len()))
}

#[test]
fn a_batch_is_planned_and_done(rt: HostRuntime) -> Result<(), Fail> {
    let (pairs, outcomes) = done::<Brand>(rt.alloc(), Blank::new(1))?;
    assert!(rt; pairs == 0);
    assert!(rt; outcomes == 1);
    Ok(())
}
