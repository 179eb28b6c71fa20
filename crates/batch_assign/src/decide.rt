//! What a batch is to do with the order, and why it may have to be refused.

ghost use Rattle.std.specs.Prelude.{◌≡◌, ◌≤◌, ◌<◌, ◌+◌, None, length, IfOk, IfErr, IfSome};
ghost use Rattle.kr_order.specs.Agreed.{first_unknown, both_live};
ghost use Rattle.batch_assign.specs.Plan.{counted, LiveAreHeld, IsBatchHeld, IsChecked, IsRefused, IsPlan, IsStop, plan_most};

use crate::draft::{add_musts, add_prefers};
use crate::{Adds, BatchStop, Plan};
use dep_graph::Graph;
use kr_order::{Batch, Pair, Steps};
use reach::{Scratch, Trail};
use ref_collect::Refs;
use std::alloc::Global;
use std::sync::ledger::Ledger;

// Whether both events of the pair are live.
fn are_live(refs: &Refs, pair: &Pair) -> bool
    ensures { result ≡ both_live (counted refs.now.counts) pair.now.first.0 pair.now.second.0 }
{
    0 < refs.count(pair.first) && 0 < refs.count(pair.second)
}

// The index of the first pair that names an event that is not live.
fn position_of_unknown(refs: &Refs, batch: &[Pair]) -> Option<usize>
    ensures found { result ≡ first_unknown (counted refs.now.counts) batch.now }
    ensures bound { IfSome result (λ i. i < length batch.now) }
{
    batch.iter().position(|pair| !are_live(refs, pair))
}

// That index, or `None` where all events of the batch are live.
fn first_unknown(refs: &Refs, batch: &[Pair]) -> Option<u32>
    requires { length batch.now ≤ 32 }
    ensures { result ≡ first_unknown (counted refs.now.counts) batch.now }
{
    match position_of_unknown(refs, batch) {
        Some(i) => Some(i as u32),
        None => None,
    }
}

// The plan of a batch whose events all are held, by searches that go on from one another.
fn checked_by<L: Ledger>(
    alloc: Global,
    graph: &Graph,
    batch: &[Pair],
    trail: &mut Trail,
    steps: &mut Steps<L>,
) -> Result<Plan, BatchStop>
    requires few { length batch.now ≤ 32 }
    requires fits { length graph.now.slots ≤ trail.old.room }
    requires begun { trail.old.from ≡ None }
    requires held { IsBatchHeld graph.now.vertices batch.now }
    ensures ok { IfOk result (IsChecked graph.now batch.now) }
    ensures err { IfErr result (IsRefused graph.now batch.now) }
    ensures room { trail.new.room ≡ trail.old.room }
    ensures least { steps.old ≤ steps.new }
    ensures most { steps.new ≤ steps.old + plan_most graph.now (length batch.now) }
{
    let mut adds = Adds::new(alloc);
    match add_musts(graph, &mut adds, trail, batch, steps)? {
        Some(i) => Err(BatchStop::Contradicts(i)),
        None => {
            let outcomes = add_prefers(alloc, graph, &mut adds, trail, batch, steps)?;
            Ok(Plan { adds, outcomes })
        }
    }
}

// The same, in the scratch's room.
fn checked<L: Ledger>(
    alloc: Global,
    graph: &Graph,
    batch: &[Pair],
    scratch: &mut Scratch,
    steps: &mut Steps<L>,
) -> Result<Plan, BatchStop>
    requires few { length batch.now ≤ 32 }
    requires fits { length graph.now.slots ≤ scratch.old }
    requires held { IsBatchHeld graph.now.vertices batch.now }
    ensures ok { IfOk result (IsChecked graph.now batch.now) }
    ensures err { IfErr result (IsRefused graph.now batch.now) }
    ensures room { scratch.new ≡ scratch.old }
    ensures least { steps.old ≤ steps.new }
    ensures most { steps.new ≤ steps.old + plan_most graph.now (length batch.now) }
{
    let mut trail = scratch.lend(alloc);
    let plan = checked_by(alloc, graph, batch, &mut trail, steps);
    scratch.take_back(trail);
    plan
}

/// What the batch is to do. It changes nothing but the scratch's marks and the count of steps.
pub fn plan<L: Ledger>(
    alloc: Global,
    graph: &Graph,
    refs: &Refs,
    batch: &Batch,
    scratch: &mut Scratch,
    steps: &mut Steps<L>,
) -> Result<Plan, BatchStop>
    requires live { LiveAreHeld refs.now.counts graph.now.vertices }
    requires fits { length graph.now.slots ≤ scratch.old }
    ensures ok { IfOk result (IsPlan refs.now.counts graph.now batch.now) }
    ensures err { IfErr result (IsStop refs.now.counts graph.now batch.now) }
    ensures room { scratch.new ≡ scratch.old }
    ensures least { steps.old ≤ steps.new }
    ensures most { steps.new ≤ steps.old + plan_most graph.now (length batch.now) }
{
    let batch = batch.as_slice();
    match first_unknown(refs, batch) {
        Some(i) => Err(BatchStop::Unknown(i)),
        None => checked(alloc, graph, batch, scratch, steps),
    }
}
