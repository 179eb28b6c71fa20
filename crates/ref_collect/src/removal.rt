//! What no live event needs is taken out of the graph.

ghost use Rattle.std.specs.Prelude.{◌≡◌, ◌≤◌, ◌+◌, [], ◌∷◌, ◌++◌, length, true};
ghost use Rattle.std.specs.List.{filter};
ghost use Rattle.dep_graph.specs.GraphView.{is_held};
ghost use Rattle.ref_collect.specs.Needed.{is_needed, AreKeptBut, AreKept, AreWaiting, NeedsTheSame};

use crate::Refs;
use dep_graph::Graph;
use kr_order::EventId;

// Takes out the event, which has no predecessor, if it is dead, with its pairs.
fn remove_dead(graph: &mut Graph, refs: &Refs, id: EventId)
    requires { AreWaiting refs.now.counts graph.old.pairs graph.old.vertices (graph.old.bare ++ id.0 ∷ []) }
    ensures waiting { AreWaiting refs.now.counts graph.new.pairs graph.new.vertices graph.new.bare }
    ensures same { NeedsTheSame refs.now.counts graph.old.pairs graph.old.vertices graph.new.pairs graph.new.vertices }
    ensures fewer { length graph.new.bare + length graph.new.pairs ≤ length graph.old.bare + length graph.old.pairs }
    ensures slots { length graph.new.slots ≡ length graph.old.slots }
    ensures spare_vertices { graph.old.spare_vertices ≤ graph.new.spare_vertices }
    ensures spare_pairs { graph.old.spare_pairs ≤ graph.new.spare_pairs }
{
    graph.recall_graph();
    if refs.count(id) == 0 {
        graph.remove_source(id);
        graph.recall_graph();
    }
}

// Takes out the bare events that are dead, with their pairs, and then those that this makes bare.
fn remove_bare(graph: &mut Graph, refs: &Refs)
    requires { AreWaiting refs.now.counts graph.old.pairs graph.old.vertices graph.old.bare }
    ensures kept { AreKept refs.now.counts graph.new.pairs graph.new.vertices }
    ensures same { NeedsTheSame refs.now.counts graph.old.pairs graph.old.vertices graph.new.pairs graph.new.vertices }
    ensures bare { graph.new.bare ≡ [] }
    ensures slots { length graph.new.slots ≡ length graph.old.slots }
    ensures spare_vertices { graph.old.spare_vertices ≤ graph.new.spare_vertices }
    ensures spare_pairs { graph.old.spare_pairs ≤ graph.new.spare_pairs }
{
    while let Some(id) = graph.take_bare() {
        remove_dead(graph, refs, id);
    }
}

// Takes out the event if it is dead and has no predecessor, with its pairs.
fn remove_if_idle(graph: &mut Graph, refs: &Refs, id: EventId)
    requires bare { graph.old.bare ≡ [] }
    requires held { is_held graph.old.vertices id.0 ≡ true }
    requires others { AreKeptBut refs.now.counts graph.old.pairs graph.old.vertices id.0 }
    ensures waiting { AreWaiting refs.now.counts graph.new.pairs graph.new.vertices graph.new.bare }
    ensures same { NeedsTheSame refs.now.counts graph.old.pairs graph.old.vertices graph.new.pairs graph.new.vertices }
    ensures slots { length graph.new.slots ≡ length graph.old.slots }
    ensures spare_vertices { graph.old.spare_vertices ≤ graph.new.spare_vertices }
    ensures spare_pairs { graph.old.spare_pairs ≤ graph.new.spare_pairs }
{
    if graph.in_count(id) == 0 {
        remove_dead(graph, refs, id);
    }
}

/// Takes out the event if it is dead and has no predecessor, with its pairs, and then each dead event that this leaves
/// without a predecessor. How many events went. It takes no memory; it costs a look-up for each event that loses its
/// last predecessor, and a step for each pair that goes.
pub fn collect(graph: &mut Graph, refs: &Refs, from: EventId) -> u64
    requires bare { graph.old.bare ≡ [] }
    requires from { is_held graph.old.vertices from.0 ≡ true }
    requires others { AreKeptBut refs.now.counts graph.old.pairs graph.old.vertices from.0 }
    ensures vertices { graph.new.vertices ≡ filter (is_needed refs.now.counts graph.old.pairs graph.old.vertices) graph.old.vertices }
    ensures pairs { graph.new.pairs ≡ filter (λ pair. is_needed refs.now.counts graph.old.pairs graph.old.vertices pair.0) graph.old.pairs }
    ensures bare { graph.new.bare ≡ [] }
    ensures gone { result + length graph.new.vertices ≡ length graph.old.vertices }
    ensures kept { AreKept refs.now.counts graph.new.pairs graph.new.vertices }
    ensures slots { length graph.new.slots ≡ length graph.old.slots }
    ensures spare_vertices { graph.old.spare_vertices ≤ graph.new.spare_vertices }
    ensures spare_pairs { graph.old.spare_pairs ≤ graph.new.spare_pairs }
{
    let held = graph.held();
    remove_if_idle(graph, refs, from);
    remove_bare(graph, refs);
    graph.recall_graph();
    held - graph.held()
}
