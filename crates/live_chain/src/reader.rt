//! A reader beside a node: it answers the node's queries.

ghost use Rattle.std.specs.Prelude.{◌≡◌, ◌<◌, ◌≤◌, ◌+◌, ◌-◌, ◌^◌, ◌++◌, List, length, false, IfOk, OnOk};
ghost use Rattle.script_lang.specs.declared.chain.ChainQuery.{ChainQuery};
ghost use Rattle.live_chain.specs.Lawful.{own_query, queries_of};
ghost use Rattle.live_chain.specs.Tellers.{HasAnswered, IsNew, IsSameTeller, Tells};

use crate::ring::Counted;
use kr_order::{ClientId, Listed, NoMemory, Told};
use kr_text::{Gate, Point};
use order_board::{BoardReader, QueryStop};
use rtrb::Consumer;
use script_lang::{ChainQueries, ChainQuery};
use std::sync::Wait;
use std::thread;

/// What the reader of a node told, in the order of the node's queries.
pub type Tolds = Listed<Told>;

// The reader of a node: what it reads, the end of the ring by which it is told how many entries the node has applied, the last
// of these counts, how many queries it was asked, and what it told.
#[derive(Drop)]
pub struct Teller {
    pub node: u32,
    pub reader: BoardReader,
    pub counts: Consumer<Counted>,
    pub count: u64,
    pub number: u32,
    pub told: Tolds,
    pub failed: bool,
}

impl Teller {
    // Waits until the node has applied so many entries. `NoMemory` where the end mark comes before.
    fn wait_for<R: Wait>(&mut self, rt: &R, least: u64) -> Result<(), NoMemory>
        ensures same { self.new ≡ record self.old { counts = self.new.counts; count = self.new.count } }
    {
        for _ in rt.forever() {
            if self.count >= least {
                return Ok(());
            }
            match self.counts.pop() {
                Ok(Counted::Applied(count)) => self.count = count,
                Ok(Counted::End) => return Err(NoMemory),
                Err(_) => thread::yield_now(),
            }
        }
        unreachable!()
    }

    // Asks until an answer comes that is after so many entries, at least.
    fn ask<R: Wait>(&mut self, rt: &R, query: &ChainQuery) -> Result<Told, NoMemory>
        ensures same { self.new ≡ record self.old { reader = self.new.reader } }
        ensures copies { self.new.reader.copies ≡ self.old.reader.copies }
        ensures ok { IfOk result (λ told. Tells self.old self.new query.now told) }
    {
        for _ in rt.forever() {
            match self.reader.query(&query.pairs) {
                Ok(told) => {
                    if told.entry >= query.least {
                        return Ok(told);
                    }
                }
                Err(QueryStop::NoMemory) => return Err(NoMemory),
                Err(QueryStop::Shut) => {}
            }
            thread::yield_now();
        }
        unreachable!()
    }

    // Answers the query, where it is the node's.
    fn answer<R: Wait, G: Gate>(
        &mut self,
        rt: &R,
        gate: &G,
        query: &ChainQuery,
    ) -> Result<(), NoMemory>
        requires few { self.old.number < 2 ^ 32 - 1 }
        ensures same { IsSameTeller self.old self.new }
        ensures number { self.new.number ≤ self.old.number + 1 }
        ensures ok { OnOk result ((queries : List ChainQuery) → HasAnswered queries self.old
            → HasAnswered (queries ++ own_query self.old.node query.now) self.new) }
    {
        if query.node != self.node {
            return Ok(());
        }
        self.number += 1;
        gate.at(ClientId(self.node), self.number, Point::Before);
        self.wait_for(rt, query.least)?;
        let told = self.ask(rt, query)?;
        gate.at(ClientId(self.node), self.number, Point::After);
        self.told.push(told)?;
        Ok(())
    }

    // Answers the node's queries, one after the other.
    fn answer_all<R: Wait, G: Gate>(
        &mut self,
        rt: &R,
        gate: &G,
        queries: &ChainQueries,
    ) -> Result<(), NoMemory>
        requires new { IsNew self.old }
        requires few { length queries.now < 2 ^ 32 }
        ensures same { IsSameTeller self.old self.new }
        ensures ok { OnOk result (HasAnswered (queries_of self.old.node queries.now) self.new) }
    {
        for query in queries.as_slice() {
            self.answer(rt, gate, query)?;
        }
        Ok(())
    }

    // The same, noting whether all were answered.
    pub(crate) fn run<R: Wait, G: Gate>(&mut self, rt: &R, gate: &G, queries: &ChainQueries)
        requires new { IsNew self.old }
        requires few { length queries.now < 2 ^ 32 }
        ensures same { IsSameTeller self.old self.new }
        ensures answered { self.new.failed ≡ false → HasAnswered (queries_of self.old.node queries.now) self.new }
    {
        self.failed = self.answer_all(rt, gate, queries).is_err();
    }
}
