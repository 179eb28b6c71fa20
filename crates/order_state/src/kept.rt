//! What a state keeps of a client's last entry, and an entry with what applying it takes.

use batch_assign::Plan;
use kr_order::{Copied, Entry, NoMemory, Reply};
use std::alloc::Global;

/// A client's last entry, without its command.
#[derive(Debug, Drop)]
pub struct Kept {
    /// The number of the command among those that the client began, from 1.
    pub seq: u64,
    /// The entry's place in the history, from 1.
    pub place: u64,
    pub reply: Reply,
}

/// An entry with all that a state keeps and answers when it applies it. It fits the state that prepared it
/// until that state applies an entry.
#[derive(Debug, Drop)]
pub struct Prepared {
    pub entry: Entry,
    /// What the state will keep of the entry.
    pub kept: Kept,
    /// What `State::apply` will answer: the reply in `kept` once more.
    pub reply: Reply,
    /// The pairs that the entry adds to the order, where it is a batch that is accepted. A release has none: what it
    /// collects is found when it is applied.
    pub plan: Option<Plan>,
}

// What a command is to do.
#[derive(Debug, Drop)]
pub(crate) struct Decision {
    pub reply: Reply,
    pub plan: Option<Plan>,
}

impl Copied for Kept {
    fn copy(&self, alloc: Global) -> Result<Self, NoMemory> {
        Ok(Kept {
            seq: self.seq,
            place: self.place,
            reply: self.reply.copy(alloc)?,
        })
    }
}
