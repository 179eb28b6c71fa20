//! Queries to an order without a history.

use kr_order::{Answer, Asked, ClientId, EventId, NoMemory, Query, Steps, Told};
use query_worker::*;
use reach::{Asks, Scratch};
use std::alloc::Global;
use std::process::Abort;
use std::sync::ledger::Ledger;
use std::test::Fail;
use std::thread::Threads;

struct Empty;

impl Asks for Empty {
    ghost use Rattle.std.specs.Prelude.{[]};

    ghost history = { λ _. [] };

    ghost cells = { λ _. 0 };

    ghost held = { λ _. 0 };

    ghost pairs_held = { λ _. 0 };

    fn fit(&self, _scratch: &mut Scratch) -> Result<(), NoMemory> {
        Ok(())
    }

    fn answer<L: Ledger>(
        &self,
        _scratch: &mut Scratch,
        _a: EventId,
        _b: EventId,
        _steps: &mut Steps<L>,
    ) -> Answer {
        Answer::Unknown
    }

    fn entry(&self) -> u64 {
        0
    }
}

// So many answers are unknown, at the beginning of the history.
fn is_unknown(rt: &impl Abort, told: &Told, count: usize) {
    assert_eq!(rt; (told.entry, told.answers.len()), (0, count));
    for answer in told.answers.as_slice() {
        assert_eq!(rt; *answer, Answer::Unknown);
    }
}

fn ask<A: Asks + Sync, R: Threads + Sync + Abort>(
    rt: &R,
    alloc: Global,
    order: &A,
) -> Result<(), Fail> {
    let mut queries = Vec::new(alloc);
    for count in 0..4 {
        let mut pairs = Asked::new(alloc);
        for event in 0..count {
            pairs.push((EventId(1), EventId(event % 2)))?;
        }
        let (client, q, part) = (ClientId(1), 1, 1);
        queries.push(Query {
            client,
            q,
            part,
            pairs,
        })?;
    }
    for workers in 1..MOST_WORKERS + 1 {
        let told = answer_all(rt, alloc, order, queries.as_slice(), workers)?;
        assert_eq!(rt; told.len(), 4);
        for (count, one) in told.iter().enumerate() {
            is_unknown(rt, one, count);
        }
    }
    Ok(())
}

#[test]
fn each_query_has_an_answer_for_each_of_its_pairs(rt: HostRuntime) -> Result<(), Fail> {
    ask(&rt, rt.alloc(), &Empty)
}
