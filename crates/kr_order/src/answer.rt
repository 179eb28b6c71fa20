//! What a client asks about pairs of events, and what it is told.

use crate::{Capped, ClientId, Copied, EventId, Listed, NoMemory, ServerId};
use std::alloc::Global;

/// How the first event of a pair stands to the second.
#[derive(Clone, Copy, Debug, PartialEq, Eq)]
pub enum Answer {
    /// The first is before the second.
    Before,
    /// The second is before the first.
    After,
    /// Both are one live event.
    Same,
    /// Neither is before the other.
    Concurrent,
    /// One of them is not live.
    Unknown,
    /// The answerer cannot say whether they are concurrent or unknown.
    Unsure,
}

/// One answer for each pair asked, in their order.
pub type Answers = Listed<Answer>;

/// Pairs of events that a query asks about. Event numbers are from 1.
pub type Asked = Capped<(EventId, EventId)>;

/// What a client is told about the pairs of a query: the answers after the history's first `entry` entries.
#[derive(Debug, Drop)]
pub struct Told {
    pub entry: u64,
    pub answers: Answers,
}

/// Who told a client of a pair.
#[derive(Clone, Copy, Debug, PartialEq, Eq)]
pub enum Teller {
    /// This server, from the history that it has applied.
    Server(ServerId),
    /// The client itself, from what it was told before.
    Cache,
}

/// What a client is told of one pair of its query.
#[derive(Clone, Copy, Debug, PartialEq, Eq)]
pub struct ToldPart {
    /// The number of the query among those that the client began, from 1.
    pub q: u64,
    pub a: EventId,
    pub b: EventId,
    pub answer: Answer,
    /// How many entries the history had for which the answer is given.
    pub entry: u64,
    pub by: Teller,
}

/// Told pairs, in the order of the query.
pub type Parts = Listed<ToldPart>;

/// A query that waits at a server.
#[derive(Debug, Drop)]
pub struct Query {
    pub client: ClientId,
    /// The number of the query among those that this client began, from 1.
    pub q: u64,
    /// 1 for the query as it was asked, 2 for the pairs of it that are asked again at the last server.
    pub part: u8,
    pub pairs: Asked,
}

impl Copied for Answer {
    fn copy(&self, _alloc: Global) -> Result<Self, NoMemory> {
        Ok(*self)
    }
}

impl Copied for ToldPart {
    fn copy(&self, _alloc: Global) -> Result<Self, NoMemory> {
        Ok(*self)
    }
}

impl Copied for (EventId, EventId) {
    fn copy(&self, _alloc: Global) -> Result<Self, NoMemory> {
        Ok(*self)
    }
}

impl Copied for Told {
    fn copy(&self, _alloc: Global) -> Result<Self, NoMemory> {
        Ok(Told {
            entry: self.entry,
            answers: self.answers.copy()?,
        })
    }
}

impl Copied for Query {
    fn copy(&self, _alloc: Global) -> Result<Self, NoMemory> {
        Ok(Query {
            client: self.client,
            q: self.q,
            part: self.part,
            pairs: self.pairs.copy()?,
        })
    }
}
