//! Queries are cut into runs, one for each worker, and what the workers tell is put together in the order of the queries.

ghost use Rattle.std.specs.Prelude.{◌≡◌, ◌*◌, ◌<◌, ◌≤◌, ℕ, length, map, slice_index_or, IfOk, OnErr};
ghost use Rattle.std.specs.Fork.{slice_chunk};
ghost use Rattle.query_worker.specs.Told.{told_after};

use crate::worker::told_uncounted;
use kr_order::{NoMemory, Query, Told};
use reach::{Asks, Scratch};
use std::alloc::Global;
use std::sync::Mutex;
use std::thread::{Threads, map_chunks};

/// The greatest number of workers.
pub const MOST_WORKERS: u32 = 8;

// No worker is started for fewer queries than these, which take less time than its start.
const LEAST_QUERIES: usize = 8;

/// What the workers search in, kept from one call to the next: so a call clears nothing for the events that there are.
#[derive(Debug, Drop)]
pub struct Workers {
    alloc: Global,
    scratches: [Mutex<Scratch>; 8],
}

// What the worker with this number, from 0, tells to these queries. It searches in the scratch that is kept for it.
fn told_by_worker<A: Asks>(
    alloc: Global,
    order: &A,
    scratches: &[Mutex<Scratch>],
    i: usize,
    queries: &[Query],
) -> Result<Vec<Told>, NoMemory>
    ensures { IfOk result (λ told. told.items ≡ map (told_after (A.history order.now)) queries.now) }
{
    if let Some(kept) = scratches.get(i) {
        if let Some(mut scratch) = kept.try_lock() {
            return told_uncounted(alloc, order, queries, &mut scratch);
        }
    }
    told_uncounted(alloc, order, queries, &mut Scratch::new(alloc))
}

// How many queries each worker has but the last.
fn run_length(queries: usize, workers: u32) -> usize
    ensures { 0 < result }
{
    queries.div_ceil(workers.max(1) as usize).max(LEAST_QUERIES)
}

// What the workers told to their runs of so many queries, one run behind the other.
fn joined<A: Asks>(
    alloc: Global,
    order: &A,
    queries: &[Query],
    size: usize,
    runs: Vec<Result<Vec<Told>, NoMemory>>,
) -> Result<Vec<Told>, NoMemory>
    requires runs { (n : ℕ) (d : _) → n < length runs.items → IfOk (slice_index_or runs.items n d)
        (λ told. told.items ≡ map (told_after (A.history order.now)) (slice_chunk queries.now size n)) }
    requires all { length queries.now ≤ length runs.items * size }
    ensures { IfOk result (λ told. told.items ≡ map (told_after (A.history order.now)) queries.now) }
{
    let mut all = Vec::with_capacity(alloc, queries.len())?;
    for run in runs {
        let mut told = run?;
        all.append(&mut told)?;
    }
    Ok(all)
}

impl Workers {
    /// Workers that have searched nothing yet. It takes no memory.
    pub fn new(alloc: Global) -> Self {
        Workers {
            alloc,
            scratches: [
                Mutex::new(Scratch::new(alloc)),
                Mutex::new(Scratch::new(alloc)),
                Mutex::new(Scratch::new(alloc)),
                Mutex::new(Scratch::new(alloc)),
                Mutex::new(Scratch::new(alloc)),
                Mutex::new(Scratch::new(alloc)),
                Mutex::new(Scratch::new(alloc)),
                Mutex::new(Scratch::new(alloc)),
            ],
        }
    }

    /// What is told to these queries after the order's history, one after the other, whatever the number of workers: 1 to
    /// 8. Each worker has a run of the queries, and a thread of its own where one can be made; a pair that is asked more
    /// than once in a run is searched for once. `NoMemory` comes only where there is a query.
    pub fn answer_all<A: Asks + Sync, R: Threads + Sync>(
        &self,
        rt: &R,
        order: &A,
        queries: &[Query],
        workers: u32,
    ) -> Result<Vec<Told>, NoMemory>
        requires least { 1 ≤ workers }
        requires most { workers ≤ MOST_WORKERS }
        ensures told { IfOk result (λ told. told.items ≡ map (told_after (A.history order.now)) queries.now) }
        ensures err { OnErr result (0 < length queries.now) }
    {
        let alloc = self.alloc;
        if queries.len() == 0 {
            return Ok(Vec::new(alloc));
        }
        let size = run_length(queries.len(), workers);
        let scratches = self.scratches.as_slice();
        if queries.len() <= size {
            return told_by_worker(alloc, order, scratches, 0, queries);
        }
        let runs = map_chunks(
            rt,
            alloc,
            queries,
            size,
            &|start, run| { told_by_worker(alloc, order, scratches, start / size, run) },
        )?;
        joined(alloc, order, queries, size, runs)
    }
}

/// What `Workers::answer_all` tells, by workers that searched nothing before.
pub fn answer_all<A: Asks + Sync, R: Threads + Sync>(
    rt: &R,
    alloc: Global,
    order: &A,
    queries: &[Query],
    workers: u32,
) -> Result<Vec<Told>, NoMemory>
    requires least { 1 ≤ workers }
    requires most { workers ≤ MOST_WORKERS }
    ensures told { IfOk result (λ told. told.items ≡ map (told_after (A.history order.now)) queries.now) }
    ensures err { OnErr result (0 < length queries.now) }
{
    Workers::new(alloc).answer_all(rt, order, queries, workers)
}
