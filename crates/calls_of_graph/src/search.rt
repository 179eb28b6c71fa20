//! Searches in small graphs whose answers are plain to see.

ghost use Rattle.std.specs.Prelude.{◌≡◌, ◌<◌, ◌≤◌, [], ◌∷◌, IfOk};

use dep_graph::Graph;
use kr_order::{Answer, EventId, NoMemory, Steps};
use reach::*;
use std::alloc::Global;
use std::marker::Brand;
use std::process::Abort;
use std::sync::ledger::{Blank, Ledger};
use std::test::Fail;

// A scratch can be moved to a thread.
fn crosses_threads<T: Send + Sync>(_value: &T) {}

// No more steps than these were taken.
fn within<L: Ledger>(_steps: &Steps<L>, _most: u64)
    requires { _steps.now ≤ _most }
{}

// Events 1, 2 and 3: 1 is before 2, and 2 is before 3.
fn chain(alloc: Global) -> Result<Graph, NoMemory>
    ensures vertices { IfOk result (λ graph. graph.vertices ≡ 1 ∷ 2 ∷ 3 ∷ []) }
    ensures pairs { IfOk result (λ graph. graph.pairs ≡ (1, 2) ∷ (2, 3) ∷ []) }
{
    let mut graph = Graph::new(alloc);
    graph.reserve(3, 2)?;
    graph.add_vertex(EventId(1));
    graph.add_vertex(EventId(2));
    graph.add_vertex(EventId(3));
    graph.add_pair(EventId(1), EventId(2));
    graph.add_pair(EventId(2), EventId(3));
    Ok(graph)
}

fn search_chain<L: Ledger>(rt: &impl Abort, alloc: Global, blank: Blank) -> Result<(), NoMemory>
    requires name { blank.name ≡ L.name }
    requires parts { blank.parts ≡ L.parts }
    requires some { 0 < blank.parts }
{
    let graph = chain(alloc)?;
    let mut scratch = Scratch::new(alloc);
    crosses_threads(&scratch);
    scratch.fit(&graph)?;
    let mut steps = Steps::<L>::new(blank);
    let (first, last) = (EventId(1), EventId(3));
    let on = reaches(&graph, &mut scratch, first, last, &mut steps);
    within(&steps, 5);
    assert!(rt; on);
    let back = reaches(&graph, &mut scratch, last, first, &mut steps);
    within(&steps, 10);
    assert!(rt; !back);
    let extra = [(last, first)];
    let round = reaches_with(&graph, &extra, &mut scratch, last, first, &mut steps);
    within(&steps, 18);
    assert!(rt; round);
    Ok(())
}

#[test]
fn a_chain_leads_on_and_not_back(rt: HostRuntime) -> Result<(), Fail> {
    search_chain::<Brand>(&rt, rt.alloc(), Blank::new(1))?;
    Ok(())
}

// An order over a graph, whose history is not the point here.
struct Empty;

impl Asks for Empty {
    ghost use Rattle.std.specs.Prelude.{[]};

    ghost history = { λ _. [] };

    ghost cells = { λ _. 0 };

    ghost held = { λ _. 0 };

    ghost pairs_held = { λ _. 0 };

    fn fit(&self, _scratch: &mut Scratch) -> Result<(), NoMemory> {
        Ok(())
    }

    fn answer<L: Ledger>(
        &self,
        _scratch: &mut Scratch,
        _a: EventId,
        _b: EventId,
        _steps: &mut Steps<L>,
    ) -> Answer {
        Answer::Unknown
    }

    fn entry(&self) -> u64 {
        0
    }
}

fn ask<A: Asks, L: Ledger>(
    rt: &impl Abort,
    order: &A,
    alloc: Global,
    blank: Blank,
) -> Result<(), NoMemory>
    requires name { blank.name ≡ L.name }
    requires parts { blank.parts ≡ L.parts }
    requires some { 0 < blank.parts }
{
    let mut scratch = Scratch::new(alloc);
    let mut steps = Steps::<L>::new(blank);
    order.fit(&mut scratch)?;
    let answer = order.answer(&mut scratch, EventId(1), EventId(2), &mut steps);
    assert_eq!(rt; answer, Answer::Unknown);
    assert_eq!(rt; order.entry(), 0);
    Ok(())
}

#[test]
fn the_empty_history_knows_no_event(rt: HostRuntime) -> Result<(), Fail> {
    ask::<Empty, Brand>(&rt, &Empty, rt.alloc(), Blank::new(1))?;
    Ok(())
}
