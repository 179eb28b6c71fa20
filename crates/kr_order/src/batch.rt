//! The pairs that a command assigns to the order, and what became of each.

use crate::{Capped, Copied, EventId, Listed, NoMemory};
use std::alloc::Global;

/// Whether a pair has to hold, or is to hold where the order leaves it open.
#[derive(Clone, Copy, Debug, PartialEq, Eq)]
pub enum Kind {
    /// The batch is refused where the order has the events the other way round.
    Must,
    /// The pair is left out where the order has the events the other way round.
    Prefer,
}

/// The first event is to be before the second. Both numbers are from 1.
#[derive(Clone, Copy, Debug, PartialEq, Eq)]
pub struct Pair {
    pub first: EventId,
    pub second: EventId,
    pub kind: Kind,
}

/// What became of a pair of a batch that was taken.
#[derive(Clone, Copy, Debug, PartialEq, Eq)]
pub enum Outcome {
    /// The first event is before the second.
    Kept,
    /// The second event was before the first, and the pair was left out.
    Reversed,
    /// The pair names one event twice, and was left out.
    Same,
}

/// The pairs of one command, in the order in which they are written.
pub type Batch = Capped<Pair>;

/// What became of each pair of a batch, in the order of the batch.
pub type Outcomes = Listed<Outcome>;

impl Copied for Pair {
    fn copy(&self, _alloc: Global) -> Result<Self, NoMemory> {
        Ok(*self)
    }
}

impl Copied for Outcome {
    fn copy(&self, _alloc: Global) -> Result<Self, NoMemory> {
        Ok(*self)
    }
}
