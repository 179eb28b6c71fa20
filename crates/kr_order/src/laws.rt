//! Laws of the definitions. Each function does nothing: its contract is the law, whose proof is checked with it.

pub mod rows;

ghost use Rattle.kr_order.specs.Laws.{LiveEventsAreBorn, CreatedEventIsNew, APathGoesOverAPair, TheOrderOnlyGrows};
ghost use Rattle.kr_order.specs.Laws.{TheOrderStaysAcyclic, ABeforeIsNeverWithdrawn, OutcomesAreTrue};
ghost use Rattle.kr_order.specs.Laws.{ARefusedBatchChangesNothing, CollectedEventsAreIdle};

/// A live event is one that was made.
pub fn live_events_are_born()
    ensures { LiveEventsAreBorn }
{}

/// A create makes an event that was not live before and is live after it.
pub fn created_event_is_new()
    ensures { CreatedEventIsNew }
{}

/// An event is before another where a path of pairs leads there, and nowhere else. These two equations say which
/// events are before which in any order, without the rounds by which they are found.
pub fn a_path_goes_over_a_pair()
    ensures { APathGoesOverAPair }
{}

/// A longer history keeps the pairs of the order, and what is before in it.
pub fn the_order_only_grows()
    ensures { TheOrderOnlyGrows }
{}

/// After no history is an event before itself.
pub fn the_order_stays_acyclic()
    ensures { TheOrderStaysAcyclic }
{}

/// Where an event was answered to be before another, it is so after every longer history, and the other is never
/// before it.
pub fn a_before_is_never_withdrawn()
    ensures { ABeforeIsNeverWithdrawn }
{}

/// A batch that is assigned has one outcome for each of its pairs, and each is true of the order with the batch.
pub fn outcomes_are_true()
    ensures { OutcomesAreTrue }
{}

/// A batch that is refused leaves the order as it was, its musts too.
pub fn a_refused_batch_changes_nothing()
    ensures { ARefusedBatchChangesNothing }
{}

/// Collected events are idle: what is held has all paths that begin at a live event, and an event that is not held
/// never is again.
pub fn collected_events_are_idle()
    ensures { CollectedEventsAreIdle }
{}
