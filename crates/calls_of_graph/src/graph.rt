//! Each call of a graph, on small graphs whose answers are plain to see.

ghost use Rattle.std.specs.Prelude.{◌≡◌, ◌<◌, ◌≤◌, [], OnOk};

use dep_graph::*;
use kr_order::{EventId, NoMemory};
use std::process::Abort;
use std::test::Fail;

// A graph can be moved to a thread and be read by several.
fn crosses_threads<T: Send + Sync>(_value: &T) {}

#[test]
fn the_graph_with_no_event_holds_nothing(rt: HostRuntime) {
    let graph = Graph::new(rt.alloc());
    crosses_threads(&graph);
    assert_eq!(rt;
        (graph.held(), graph.pairs_held(), graph.cells()),
        (0, 0, 0)
    );
    assert!(rt; !graph.has(EventId(1)));
    assert!(rt; graph.cell_of(EventId(1)).is_none());
}

// Two events with a pair, of which the least and then the other is taken out again.
fn come_and_go(rt: &impl Abort, graph: &mut Graph, n: u64) -> Result<(), NoMemory>
    requires few { n < 1000 }
    requires vertices { graph.old.vertices ≡ [] }
    requires pairs { graph.old.pairs ≡ [] }
    requires bare { graph.old.bare ≡ [] }
    ensures vertices { OnOk result (graph.new.vertices ≡ []) }
    ensures pairs { OnOk result (graph.new.pairs ≡ []) }
    ensures bare { OnOk result (graph.new.bare ≡ []) }
{
    let first = EventId(2 * n);
    let second = EventId(2 * n + 1);
    graph.reserve(2, 1)?;
    graph.add_vertex(first);
    graph.add_vertex(second);
    graph.add_pair(first, second);
    graph.remove_source(first);
    assert_eq!(rt; graph.take_bare(), Some(second), "{n}");
    graph.remove_source(second);
    Ok(())
}

// So often, for greater and greater events.
fn come_and_go_to(rt: &impl Abort, graph: &mut Graph, end: u64) -> Result<(), NoMemory>
    requires few { end ≤ 1000 }
    requires vertices { graph.old.vertices ≡ [] }
    requires pairs { graph.old.pairs ≡ [] }
    requires bare { graph.old.bare ≡ [] }
{
    for n in 0..end {
        come_and_go(rt, graph, n)?;
    }
    Ok(())
}

#[test]
fn room_comes_back_where_events_come_and_go(rt: HostRuntime) -> Result<(), Fail> {
    let mut graph = Graph::new(rt.alloc());
    come_and_go_to(&rt, &mut graph, 1000)?;
    assert_eq!(rt; (graph.held(), graph.pairs_held()), (0, 0));
    assert!(rt; graph.cells() < 8);
    Ok(())
}

#[test]
fn a_table_finds_what_is_left_of_it(rt: HostRuntime) -> Result<(), Fail> {
    let mut table = EventTable::new(rt.alloc());
    crosses_threads(&table);
    table.reserve(3)?;
    table.push(2, 20);
    table.push(4, 40);
    table.push(7, 70);
    table.set(4, 41);
    table.remove(7);
    table.remove(2);
    table.reserve(2)?;
    table.push(5, 50);
    assert_eq!(rt; table.len(), 2);
    for (event, number) in [
        (1, None),
        (2, None),
        (4, Some(41)),
        (5, Some(50)),
        (7, None),
    ] {
        assert_eq!(rt; table.get(event), number, "{event}");
    }
    Ok(())
}
