//! What a reader asks of an order.

ghost use Rattle.std.specs.Prelude.{◌≡◌, ◌≤◌, ◌+◌, ◌*◌, ℕ, List, length, OnOk, OnErr};
ghost use Rattle.kr_order.specs.declared.history.Entry.{Entry};
ghost use Rattle.kr_order.specs.Held.{held_events, held_pairs};
ghost use Rattle.kr_order.specs.Answer.{answer_to};

use crate::Scratch;
use kr_order::{Answer, EventId, NoMemory, Steps};
use std::sync::ledger::Ledger;

/// An order that answers how two events stand to one another.
pub trait Asks {
    // the history that the value stands for
    ghost history: { Self → List Entry };

    // how many cells the order has
    ghost cells: { Self → ℕ };

    // how many events and pairs are held
    ghost held: { Self → ℕ };

    ghost pairs_held: { Self → ℕ };

    /// Makes room for the order's cells. After `NoMemory` the room is as before.
    fn fit(&self, scratch: &mut Scratch) -> Result<(), NoMemory>
        ensures ok { OnOk result (cells self.now ≤ scratch.new) }
        ensures room { scratch.old ≤ scratch.new }
        ensures err { OnErr result (scratch.new ≡ scratch.old) };

    /// How `a` stands to `b`. It takes no memory, and at most two steps for each held event and each held pair.
    fn answer<L: Ledger>(
        &self,
        scratch: &mut Scratch,
        a: EventId,
        b: EventId,
        steps: &mut Steps<L>,
    ) -> Answer
        requires { cells self.now ≤ scratch.old }
        ensures value { result ≡ answer_to (history self.now) a.0 b.0 }
        ensures most { steps.new ≤ steps.old + 2 * (held self.now + pairs_held self.now) }
        ensures held { held self.now ≡ length (held_events (history self.now)) }
        ensures pairs_held { pairs_held self.now ≡ length (held_pairs (history self.now)) }
        ensures room { scratch.new ≡ scratch.old };

    /// The length of the history that the value stands for.
    fn entry(&self) -> u64
        ensures { result ≡ length (history self.now) };
}
