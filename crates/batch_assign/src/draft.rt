//! The pairs that a batch is to add, as they are found one after the other. The order that counts for the next pair
//! is that of the graph with the pairs that were found before. A search from the event of the last one, where that ended,
//! goes on from what it found.

ghost use Rattle.std.specs.Prelude.{◌≡◌, ◌≤◌, ◌+◌, ◌&&◌, true, false, length, IfOk, OnOk};
ghost use Rattle.std.specs.List.{All};
ghost use Rattle.kr_order.specs.Batch.{is_must, forbids, with_pair, with_must, with_prefer, musts_from, prefers_from, contradicts};
ghost use Rattle.kr_order.specs.Batch.{outcome_of, outcomes_from};
ghost use Rattle.reach.specs.Search.{AreHeld};
ghost use Rattle.reach.specs.Trails.{IsTrail};
ghost use Rattle.batch_assign.specs.Plan.{IsPairHeld, IsBatchHeld, order_with, CanBeAdded, search_most, twice_each, must_one, prefer_one};
ghost use Rattle.batch_assign.specs.Plan.{musts_in, prefers_in};

use crate::Adds;
use dep_graph::Graph;
use kr_order::{EventId, Kind, NoMemory, Outcome, Outcomes, Pair, Steps};
use reach::Trail;
use std::alloc::Global;
use std::sync::ledger::Ledger;

// Adds the pair where the order neither says nor forbids it. Whether the order forbids it, and then nothing is added. Where
// a path says the pair, there is none the other way, and none is searched for.
fn add<L: Ledger>(
    graph: &Graph,
    adds: &mut Adds,
    trail: &mut Trail,
    pair: &Pair,
    steps: &mut Steps<L>,
) -> Result<bool, NoMemory>
    requires fits { length graph.now.slots ≤ trail.old.room }
    requires pair { IsPairHeld graph.now.vertices pair.now }
    requires adds { CanBeAdded graph.now adds.old }
    requires trail { IsTrail graph.now (order_with graph.now adds.old) trail.old }
    ensures forbids { IfOk result (λ stops. stops ≡ forbids (order_with graph.now adds.old) pair.now) }
    ensures order { IfOk result (λ stops. stops ≡ false
        → order_with graph.now adds.new ≡ with_pair (order_with graph.now adds.old) pair.now) }
    ensures same { IfOk result (λ stops. stops ≡ true → adds.new ≡ adds.old) }
    ensures adds { OnOk result (CanBeAdded graph.now adds.new) }
    ensures trail { OnOk result (IsTrail graph.now (order_with graph.now adds.new) trail.new) }
    ensures room { trail.new.room ≡ trail.old.room }
    ensures grows { length adds.new ≤ length adds.old + 1 }
    ensures least { steps.old ≤ steps.new }
    ensures most { steps.new ≤ steps.old + twice_each 1 (search_most graph.now (length adds.old)) }
{
    graph.recall_graph();
    if pair.first.0 == pair.second.0 {
        return Ok(true);
    }
    if trail.reaches(graph, adds.as_slice(), pair.first, pair.second, steps) {
        return Ok(false);
    }
    if trail.reaches(graph, adds.as_slice(), pair.second, pair.first, steps) {
        return Ok(true);
    }
    adds.push((pair.first, pair.second))?;
    Ok(false)
}

// Adds the pair if it is a must. Whether it is one that the order forbids, and then nothing is added.
fn add_must<L: Ledger>(
    graph: &Graph,
    adds: &mut Adds,
    trail: &mut Trail,
    pair: &Pair,
    steps: &mut Steps<L>,
) -> Result<bool, NoMemory>
    requires fits { length graph.now.slots ≤ trail.old.room }
    requires pair { IsPairHeld graph.now.vertices pair.now }
    requires adds { CanBeAdded graph.now adds.old }
    requires trail { IsTrail graph.now (order_with graph.now adds.old) trail.old }
    ensures stops { IfOk result
        (λ stops. stops ≡ (is_must pair.now.kind && forbids (order_with graph.now adds.old) pair.now)) }
    ensures order { IfOk result (λ stops. stops ≡ false
        → order_with graph.now adds.new ≡ with_must (order_with graph.now adds.old) pair.now) }
    ensures adds { OnOk result (CanBeAdded graph.now adds.new) }
    ensures trail { OnOk result (IsTrail graph.now (order_with graph.now adds.new) trail.new) }
    ensures room { trail.new.room ≡ trail.old.room }
    ensures grows { length adds.new ≤ length adds.old + must_one pair.now }
    ensures least { steps.old ≤ steps.new }
    ensures most { steps.new
        ≤ steps.old + twice_each (must_one pair.now) (search_most graph.now (length adds.old)) }
{
    match pair.kind {
        Kind::Must => { add(graph, adds, trail, pair, steps) }
        Kind::Prefer => Ok(false),
    }
}

// Adds the pair if it is a prefer that the order does not forbid. What becomes of it.
fn add_prefer<L: Ledger>(
    graph: &Graph,
    adds: &mut Adds,
    trail: &mut Trail,
    pair: &Pair,
    steps: &mut Steps<L>,
) -> Result<Outcome, NoMemory>
    requires fits { length graph.now.slots ≤ trail.old.room }
    requires pair { IsPairHeld graph.now.vertices pair.now }
    requires adds { CanBeAdded graph.now adds.old }
    requires trail { IsTrail graph.now (order_with graph.now adds.old) trail.old }
    ensures outcome { IfOk result (λ outcome. outcome ≡ outcome_of (order_with graph.now adds.old) pair.now) }
    ensures order { OnOk result
        (order_with graph.now adds.new ≡ with_prefer (order_with graph.now adds.old) pair.now) }
    ensures adds { OnOk result (CanBeAdded graph.now adds.new) }
    ensures trail { OnOk result (IsTrail graph.now (order_with graph.now adds.new) trail.new) }
    ensures room { trail.new.room ≡ trail.old.room }
    ensures grows { length adds.new ≤ length adds.old + prefer_one pair.now }
    ensures least { steps.old ≤ steps.new }
    ensures most { steps.new
        ≤ steps.old + twice_each (prefer_one pair.now) (search_most graph.now (length adds.old)) }
{
    match pair.kind {
        Kind::Must => Ok(Outcome::Kept),
        Kind::Prefer => {
            if pair.first.0 == pair.second.0 {
                return Ok(Outcome::Same);
            }
            if add(graph, adds, trail, pair, steps)? {
                return Ok(Outcome::Reversed);
            }
            Ok(Outcome::Kept)
        }
    }
}

// Adds the musts of the batch, in list order, up to the first that the order forbids. The index of that one.
pub(crate) fn add_musts<L: Ledger>(
    graph: &Graph,
    adds: &mut Adds,
    trail: &mut Trail,
    batch: &[Pair],
    steps: &mut Steps<L>,
) -> Result<Option<u32>, NoMemory>
    requires few { length batch.now ≤ 32 }
    requires fits { length graph.now.slots ≤ trail.old.room }
    requires batch { IsBatchHeld graph.now.vertices batch.now }
    requires adds { CanBeAdded graph.now adds.old }
    requires trail { IsTrail graph.now (order_with graph.now adds.old) trail.old }
    ensures found { IfOk result (λ found. found ≡ contradicts (order_with graph.now adds.old) batch.now) }
    ensures order { IfOk result (λ found. found ≡ None
        → order_with graph.now adds.new ≡ musts_from (order_with graph.now adds.old) batch.now) }
    ensures adds { OnOk result (CanBeAdded graph.now adds.new) }
    ensures trail { OnOk result (IsTrail graph.now (order_with graph.now adds.new) trail.new) }
    ensures room { trail.new.room ≡ trail.old.room }
    ensures grows { length adds.new ≤ length adds.old + musts_in batch.now }
    ensures least { steps.old ≤ steps.new }
    ensures most { steps.new
        ≤ steps.old + twice_each (musts_in batch.now)
        (search_most graph.now (length adds.old + musts_in batch.now)) }
{
    for (i, pair) in batch.iter().enumerate() {
        if add_must(graph, adds, trail, pair, steps)? {
            return Ok(Some(i as u32));
        }
    }
    Ok(None)
}

// Adds the prefers of the batch, in list order, where the order does not forbid them. What becomes of each pair of
// the batch.
pub(crate) fn add_prefers<L: Ledger>(
    alloc: Global,
    graph: &Graph,
    adds: &mut Adds,
    trail: &mut Trail,
    batch: &[Pair],
    steps: &mut Steps<L>,
) -> Result<Outcomes, NoMemory>
    requires fits { length graph.now.slots ≤ trail.old.room }
    requires batch { IsBatchHeld graph.now.vertices batch.now }
    requires adds { CanBeAdded graph.now adds.old }
    requires trail { IsTrail graph.now (order_with graph.now adds.old) trail.old }
    ensures outcomes { IfOk result (λ outcomes. outcomes ≡ outcomes_from (order_with graph.now adds.old) batch.now) }
    ensures order { OnOk result
        (order_with graph.now adds.new ≡ prefers_from (order_with graph.now adds.old) batch.now) }
    ensures adds { OnOk result (CanBeAdded graph.now adds.new) }
    ensures trail { OnOk result (IsTrail graph.now (order_with graph.now adds.new) trail.new) }
    ensures room { trail.new.room ≡ trail.old.room }
    ensures grows { length adds.new ≤ length adds.old + prefers_in batch.now }
    ensures least { steps.old ≤ steps.new }
    ensures most { steps.new
        ≤ steps.old + twice_each (prefers_in batch.now)
        (search_most graph.now (length adds.old + prefers_in batch.now)) }
{
    let mut outcomes = Outcomes::new(alloc);
    for pair in batch {
        let outcome = add_prefer(graph, adds, trail, pair, steps)?;
        outcomes.push(outcome)?;
    }
    Ok(outcomes)
}
