//! What is told of a log.

ghost use Rattle.std.specs.Prelude.{◌≡◌, length};
ghost use Rattle.kr_order.specs.Order.{reach};
ghost use Rattle.script_lang.specs.Number.{IsFromOneTo};

use crate::clocks::part_of;
use kr_order::{EventId, Listed};

/// A vector clock: for each process, from process 1 on, how many of its events the event knows, of at most 20,000.
pub type Clock = Listed<u16>;

/// An event's process, from 1, and its clock.
#[derive(Debug, Drop)]
pub struct Clocked {
    pub process: u32,
    pub clock: Clock,
}

/// The events, from event 1 on.
pub type Clockeds = Listed<Clocked>;

/// Pairs of events, the first of which is before the second.
pub type EventPairs = Listed<(EventId, EventId)>;

/// The events of a log with their clocks, and its pairs, in the order of the lines.
#[derive(Debug, Drop)]
pub struct Imported {
    pub processes: u32,
    pub events: Clockeds,
    pub pairs: EventPairs,
}

impl Imported {
    ghost use Rattle.clock_import.specs.Pairs.{numbered};
    ghost use Rattle.clock_import.specs.Imported.{IsImported};

    /// Whether a path of the pairs leads from `a` to `b`. Two numbers of their clocks are compared, and no memory is taken.
    pub fn before(&self, a: EventId, b: EventId) -> bool
        requires imported { IsImported self.now }
        requires a { IsFromOneTo (length self.now.events) a.0 }
        requires b { IsFromOneTo (length self.now.events) b.0 }
        ensures { result ≡ reach (numbered self.now.pairs) a.0 b.0 }
    {
        if a.0 == b.0 {
            return false;
        }
        let events = self.events.as_slice();
        let (one, other) = (a.0 as usize - 1, b.0 as usize - 1);
        let process = events[one].process;
        part_of(events, Some(one), process) <= part_of(events, Some(other), process)
    }
}
