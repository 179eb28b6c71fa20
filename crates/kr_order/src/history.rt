//! Commands, the entries of a history, and what their callers are told.

use crate::{Batch, ClientId, Copied, EventId, NoMemory, Outcomes};
use std::alloc::Global;

/// What a client asks of the service, to be done at one place of the history.
#[derive(Debug, Drop)]
pub enum Command {
    /// Makes the next event.
    Create,
    /// Assigns the pairs of a batch to the order. Where one of them names an event that is not live, or a must
    /// contradicts the order, nothing is changed.
    Assign(Batch),
    /// One reference more to an event that is live.
    Acquire(EventId),
    /// One reference less to an event that is live; at none it is dead for good.
    Release(EventId),
}

/// One client's command in a history.
#[derive(Debug, Drop)]
pub struct Entry {
    pub client: ClientId,
    /// The number of the command among those that this client began, from 1.
    pub seq: u64,
    pub command: Command,
}

/// What a command did.
#[derive(Debug, Drop)]
pub enum Reply {
    /// The event that was made.
    Created(EventId),
    /// What became of each pair, in the order of the batch.
    Assigned(Outcomes),
    /// How many references the event has now.
    Count(u64),
    /// Of a batch, the index from 0 of the first pair that names an event that is not live; of an acquire or a
    /// release 0, where its event is not live. Nothing was changed.
    Unknown(u32),
    /// The index, from 0 in the whole batch, of the first must that contradicts the order. Nothing was changed.
    Contradicts(u32),
}

/// A reply, with the place of its entry in the history, from 1.
#[derive(Debug, Drop)]
pub struct Placed {
    pub place: u64,
    pub reply: Reply,
}

/// What a client is told of its command of this sequence number.
#[derive(Debug, Drop)]
pub struct ToldReply {
    pub seq: u64,
    pub placed: Placed,
}

/// An entry of a history with its place, from 1, and its reply.
#[derive(Debug, Drop)]
pub struct DoneEntry {
    pub place: u64,
    pub entry: Entry,
    pub reply: Reply,
}

impl Copied for Command {
    fn copy(&self, _alloc: Global) -> Result<Self, NoMemory> {
        match self {
            Command::Create => Ok(Command::Create),
            Command::Assign(batch) => Ok(Command::Assign(batch.copy()?)),
            Command::Acquire(event) => Ok(Command::Acquire(*event)),
            Command::Release(event) => Ok(Command::Release(*event)),
        }
    }
}

impl Copied for Entry {
    fn copy(&self, alloc: Global) -> Result<Self, NoMemory> {
        Ok(Entry {
            client: self.client,
            seq: self.seq,
            command: self.command.copy(alloc)?,
        })
    }
}

impl Copied for Reply {
    fn copy(&self, _alloc: Global) -> Result<Self, NoMemory> {
        match self {
            Reply::Created(id) => Ok(Reply::Created(*id)),
            Reply::Assigned(outcomes) => Ok(Reply::Assigned(outcomes.copy()?)),
            Reply::Count(count) => Ok(Reply::Count(*count)),
            Reply::Unknown(index) => Ok(Reply::Unknown(*index)),
            Reply::Contradicts(index) => Ok(Reply::Contradicts(*index)),
        }
    }
}

impl Copied for Placed {
    fn copy(&self, alloc: Global) -> Result<Self, NoMemory> {
        Ok(Placed {
            place: self.place,
            reply: self.reply.copy(alloc)?,
        })
    }
}

impl Copied for DoneEntry {
    fn copy(&self, alloc: Global) -> Result<Self, NoMemory> {
        Ok(DoneEntry {
            place: self.place,
            entry: self.entry.copy(alloc)?,
            reply: self.reply.copy(alloc)?,
        })
    }
}
