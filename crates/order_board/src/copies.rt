//! One copy of the order, and how an entry is put into it.

ghost use Rattle.std.specs.Prelude.{◌≡◌};

use crate::Note;
use crate::history::Front;
use kr_order::Entry;
use left_right::Absorb;
use order_state::State;
use std::alloc::AllocError;
use std::collections::LinkedList;

// The histories that a state can grow from have fewer entries.
const MOST_ENTRIES: u64 = 1 << 58;

// One copy: a state, and the beginning of the log that it stands for.
#[derive(Drop)]
pub struct OrderCopy {
    pub state: State,
    pub seen: Front,
}

// What is put into each copy: an entry, and the beginning of the log that ends with it.
#[derive(Drop)]
pub struct Growth {
    pub entry: Entry,
    pub seen: Front,
}

impl OrderCopy {
    // The beginning of the log that it stands for.
    pub(crate) fn note(&self) -> Note
        requires { self.now.seen.log ≡ self.now.state.history }
        ensures { result ≡ record { list = self.now.state.history; copies = self.now.seen.book } }
    {
        Note::of(self.seen.again(), self.state.count())
    }
}

impl Absorb<Growth> for OrderCopy {
    ghost use Rattle.std.specs.Prelude.{◌∷◌, ◌++◌, []};

    // a clause reads a linked list as a list
    type State = (LinkedList<Entry>, Front);

    ghost state = { λ copy. (copy.state.history, copy.seen) };

    ghost applied = { λ stands growth. (stands.0 ++ growth.entry ∷ [], growth.seen) };

    fn absorb_first(&mut self, growth: &Growth, _other: &OrderCopy) -> Result<(), AllocError> {
        if self.state.count() >= MOST_ENTRIES {
            return Err(AllocError);
        }
        let Ok(prepared) = self.state.prepare(&growth.entry) else {
            return Err(AllocError);
        };
        self.state.apply(prepared);
        self.seen = growth.seen.again();
        Ok(())
    }
}
