//! A plan is carried out.

ghost use Rattle.std.specs.Prelude.{◌≡◌, ◌≤◌, ◌+◌, ◌++◌, length};
ghost use Rattle.dep_graph.specs.GraphView.{CanAddAll};
ghost use Rattle.reach.specs.Search.{numbered};

use crate::Plan;
use dep_graph::Graph;
use kr_order::Outcomes;

/// Adds the plan's pairs to the graph, and gives what becomes of the pairs of its batch. It takes no memory.
pub fn commit(graph: &mut Graph, plan: Plan) -> Outcomes
    requires fits { CanAddAll graph.old.vertices graph.old.pairs (numbered plan.adds) }
    requires room { length plan.adds ≤ graph.old.spare_pairs }
    ensures outcomes { result ≡ plan.outcomes }
    ensures pairs { graph.new.pairs ≡ graph.old.pairs ++ numbered plan.adds }
    ensures vertices { graph.new.vertices ≡ graph.old.vertices }
    ensures bare { graph.new.bare ≡ graph.old.bare }
    ensures slots { graph.new.slots ≡ graph.old.slots }
    ensures spare_vertices { graph.new.spare_vertices ≡ graph.old.spare_vertices }
    ensures spare_pairs { graph.old.spare_pairs ≤ graph.new.spare_pairs + length plan.adds }
{
    let Plan { adds, outcomes } = plan;
    for pair in adds.as_slice() {
        graph.add_pair(pair.0, pair.1);
    }
    outcomes
}
