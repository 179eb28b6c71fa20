//! What a plan holds, and why there may be none.

ghost use Rattle.std.specs.Prelude.{◌≡◌};

use kr_order::{EventId, Listed, NoMemory, Outcomes};
use thiserror::Error;

/// Pairs that are to be added to the order, one after the other.
pub type Adds = Listed<(EventId, EventId)>;

/// The pairs that a batch adds to the order, and what becomes of each of its own pairs.
#[derive(Debug, Drop)]
pub struct Plan {
    pub adds: Adds,
    pub outcomes: Outcomes,
}

/// Why a batch has no plan.
#[derive(Clone, Copy, Debug, PartialEq, Eq, Error)]
pub enum BatchStop {
    /// The pair with this index, from 0, is the first that names an event that is not live.
    #[error("pair {0} names an event that is not live")]
    Unknown(u32),
    /// The pair with this index, from 0, is the first must that the order forbids, with the musts before it.
    #[error("pair {0} is a must that contradicts the order")]
    Contradicts(u32),
    #[error("out of memory")]
    NoMemory,
}

impl From<NoMemory> for BatchStop {
    ghost use Rattle.batch_assign.specs.declared.adds.BatchStop.TheVariants.{NoMemory as OutOfMemory};

    ghost from_gives = { λ _ stop. stop ≡ OutOfMemory };

    fn from(_: NoMemory) -> Self {
        BatchStop::NoMemory
    }
}
