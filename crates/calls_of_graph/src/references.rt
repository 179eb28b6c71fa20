//! Each call on references, on events that were born with gaps between their numbers; and what is collected of small
//! graphs.

ghost use Rattle.std.specs.Prelude.{◌≡◌, [], true, IfOk};
ghost use Rattle.dep_graph.specs.GraphView.{is_held};
ghost use Rattle.ref_collect.specs.Needed.{AreKept};

use dep_graph::Graph;
use kr_order::{EventId, NoMemory};
use ref_collect::*;
use std::alloc::Global;
use std::process::Abort;
use std::test::Fail;

// References can be moved to a thread and be read by several.
fn crosses_threads<T: Send + Sync>(_value: &T) {}

#[test]
fn an_event_is_live_from_its_birth_to_its_last_release(rt: HostRuntime) -> Result<(), Fail> {
    let mut refs = Refs::new(rt.alloc());
    crosses_threads(&refs);
    assert_eq!(rt; refs.count(EventId(2)), 0);
    refs.reserve(3)?;
    refs.birth(EventId(2));
    refs.birth(EventId(3));
    refs.birth(EventId(7));
    assert_eq!(rt; refs.acquire(EventId(3)), Some(2));
    assert_eq!(rt; refs.release(EventId(7)), Some(0));
    assert_eq!(rt; refs.release(EventId(3)), Some(1));
    assert!(rt; refs.release(EventId(7)).is_none());
    assert!(rt; refs.release(EventId(5)).is_none());
    assert_eq!(rt; refs.count(EventId(7)), 0);
    assert!(rt; refs.acquire(EventId(7)).is_none());
    for (id, count) in [(1, 0), (2, 1), (3, 1), (4, 0), (6, 0), (7, 0), (8, 0)] {
        assert_eq!(rt; refs.count(EventId(id)), count, "{id}");
    }
    Ok(())
}

// Events 1 to 4, each with a reference: 1 is before 2 and 3, and both are before 4.
fn diamond(alloc: Global) -> Result<(Graph, Refs), NoMemory>
    ensures bare { IfOk result (λ both. both.0.bare ≡ []) }
    ensures kept { IfOk result (λ both. AreKept both.1.counts both.0.pairs both.0.vertices) }
{
    let mut graph = Graph::new(alloc);
    let mut refs = Refs::new(alloc);
    graph.reserve(4, 4)?;
    refs.reserve(4)?;
    graph.add_vertex(EventId(1));
    refs.birth(EventId(1));
    graph.add_vertex(EventId(2));
    refs.birth(EventId(2));
    graph.add_vertex(EventId(3));
    refs.birth(EventId(3));
    graph.add_vertex(EventId(4));
    refs.birth(EventId(4));
    graph.add_pair(EventId(1), EventId(2));
    graph.add_pair(EventId(1), EventId(3));
    graph.add_pair(EventId(2), EventId(4));
    graph.add_pair(EventId(3), EventId(4));
    Ok((graph, refs))
}

// Takes a reference from the event, and collects: so many events go, and so many events and pairs are left.
fn releases(
    rt: &impl Abort,
    graph: &mut Graph,
    refs: &mut Refs,
    event: u64,
    gone: u64,
    left: (u64, u64),
)
    requires bare { graph.old.bare ≡ [] }
    requires kept { AreKept refs.old.counts graph.old.pairs graph.old.vertices }
    ensures bare { graph.new.bare ≡ [] }
    ensures kept { AreKept refs.new.counts graph.new.pairs graph.new.vertices }
{
    let id = EventId(event);
    assert!(rt; graph.has(id), "{event}");
    let _ = refs.release(id);
    assert_eq!(rt; collect(graph, refs, id), gone, "{event}");
    assert_eq!(rt; (graph.held(), graph.pairs_held()), left, "{event}");
}

#[test]
fn a_dead_event_goes_once_none_is_left_before_it(rt: HostRuntime) -> Result<(), Fail> {
    let (mut graph, mut refs) = diamond(rt.alloc())?;
    releases(&rt, &mut graph, &mut refs, 2, 0, (4, 4));
    releases(&rt, &mut graph, &mut refs, 4, 0, (4, 4));
    releases(&rt, &mut graph, &mut refs, 1, 2, (2, 1));
    releases(&rt, &mut graph, &mut refs, 3, 2, (0, 0));
    Ok(())
}
