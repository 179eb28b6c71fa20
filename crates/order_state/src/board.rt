//! What a server keeps of the entries that it has applied, and what it answers from them.

ghost use Rattle.std.specs.Prelude.{◌≡◌, ◌^◌, ◌<◌, ◌∷◌, ◌++◌, [], List, length, map, IfOk, OnOk, OnErr};
ghost use Rattle.std.specs.Option.{option_map};
ghost use Rattle.std.specs.Thread.{IsSync};
ghost use Rattle.kr_order.specs.declared.history.Entry.{Entry};
ghost use Rattle.kr_order.specs.Held.{held_events, held_pairs};
ghost use Rattle.kr_order.specs.Reply.{reply_to};
ghost use Rattle.kr_order.specs.Done.{done_of, last_of};
ghost use Rattle.query_worker.specs.Told.{told_after};
ghost use Rattle.order_state.specs.Kept.{kept_of};

use crate::{Kept, State};
use kr_order::{ClientId, Copied, Entry, NoMemory, Query, Reply, Told};
use query_worker::{MOST_WORKERS, Workers};
use std::alloc::Global;
use std::marker::Model;
use std::thread::Threads;

/// The state of a history, as a server uses it.
pub trait Board: Drop {
    /// The history that the board stands for.
    ghost stands: { Self → List Entry };

    /// Puts a copy of the entry at the end of the history, and gives its reply. After `NoMemory` the history is as
    /// before.
    fn apply(&mut self, entry: &Entry) -> Result<Reply, NoMemory>
        requires { length (stands self.old) < 2 ^ 58 }
        ensures history { OnOk result (stands self.new ≡ stands self.old ++ entry.now ∷ []) }
        ensures reply { IfOk result (λ reply. reply ≡ reply_to (stands self.old) entry.now.command) }
        ensures err { OnErr result (stands self.new ≡ stands self.old) };

    /// The answers to these queries after the history, one after the other, whatever the number of workers. `NoMemory`
    /// comes only where there is a query. Its one condition is the bound `Sync`, which holds of each `R` that it is called
    /// with: a method of a trait knows of it by a clause.
    fn all<R: Threads + Sync>(
        &self,
        rt: &R,
        queries: &[Query],
        workers: u32,
    ) -> Result<Vec<Told>, NoMemory>
        requires { IsSync R.row }
        ensures told { IfOk result (λ told. told.items ≡ map (told_after (stands self.now)) queries.now) }
        ensures err { OnErr result (0 < length queries.now) };

    /// A copy of what is kept of the client's last entry; `None` where the history has none of the client.
    fn last(&self, client: ClientId) -> Result<Option<Kept>, NoMemory>
        ensures { IfOk result (λ last. last ≡ option_map kept_of (last_of client (done_of (stands self.now)))) };

    /// The sequence number of the client's last entry, from 1; `None` where the history has none of the client. It takes
    /// no memory.
    fn last_seq(&self, client: ClientId) -> Option<u64>
        ensures { result ≡ option_map (λ done. done.entry.seq) (last_of client (done_of (stands self.now))) };

    /// How many entries the history has.
    fn count(&self) -> u64
        ensures { result ≡ length (stands self.now) };

    /// How many events are held.
    fn held(&self) -> u64
        ensures { result ≡ length (held_events (stands self.now)) };

    /// How many pairs are held.
    fn pairs_held(&self) -> u64
        ensures { result ≡ length (held_pairs (stands self.now)) };
}

/// A board over one state.
#[derive(Debug, Drop)]
pub struct PlainBoard {
    alloc: Global,
    state: State,
    workers: Workers,
}

impl Model for PlainBoard {
    ghost use Rattle.std.specs.Prelude.{List};
    ghost use Rattle.kr_order.specs.declared.history.Entry.{Entry};

    ghost Value = { List Entry };

    ghost view = { λ board. board.state.history };
}

impl PlainBoard {
    /// The board of the empty history. It takes no memory.
    pub fn new(alloc: Global) -> Self
        ensures { result ≡ [] }
    {
        PlainBoard {
            alloc,
            state: State::new(alloc),
            workers: Workers::new(alloc),
        }
    }
}

impl Board for PlainBoard {
    ghost stands = { λ board. board };

    fn apply(&mut self, entry: &Entry) -> Result<Reply, NoMemory> {
        let prepared = self.state.prepare(entry)?;
        Ok(self.state.apply(prepared))
    }

    fn all<R: Threads + Sync>(
        &self,
        rt: &R,
        queries: &[Query],
        workers: u32,
    ) -> Result<Vec<Told>, NoMemory> {
        let workers = workers.max(1).min(MOST_WORKERS);
        self.workers.answer_all(rt, &self.state, queries, workers)
    }

    fn last(&self, client: ClientId) -> Result<Option<Kept>, NoMemory> {
        match self.state.last(client) {
            Some(kept) => Ok(Some(kept.copy(self.alloc)?)),
            None => Ok(None),
        }
    }

    fn last_seq(&self, client: ClientId) -> Option<u64> {
        match self.state.last(client) {
            Some(kept) => Some(kept.seq),
            None => None,
        }
    }

    fn count(&self) -> u64 {
        self.state.count()
    }

    fn held(&self) -> u64 {
        self.state.held()
    }

    fn pairs_held(&self) -> u64 {
        self.state.pairs_held()
    }
}
