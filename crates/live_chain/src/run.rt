//! A plan, run by three nodes on threads.

ghost use Rattle.std.specs.Prelude.{◌≡◌, ◌<◌, ◌^◌, length, IfOk, OnOk};
ghost use Rattle.rtrb.specs.Ring.{sent, SameProducer};
ghost use Rattle.live_chain.specs.Lawful.{ChainLawful};
ghost use Rattle.live_chain.specs.Rings.{whole};
ghost use Rattle.live_chain.specs.Stages.{HasRun, HasRunChain, IsReady, IsReadyChain, IsSameStage};

use crate::compare::{compare, compare_next};
use crate::copies::three_copies;
use crate::feed::feed;
use crate::reader::Tolds;
use crate::ring::{Passed, ring_for};
use crate::stage::Stage;
use kr_order::{DoneList, NoMemory};
use kr_text::Gate;
use rtrb::Producer;
use script_lang::ChainPlan;
use std::alloc::Global;
use std::sync::Wait;
use std::thread::{Threads, join_mut};

/// What came of one node: what its reader told, in the order of the node's queries, and its journal.
#[derive(Debug, Drop)]
pub struct ChainNode {
    pub told: Tolds,
    pub journal: DoneList,
}

/// What came of a plan.
#[derive(Debug, Drop)]
pub struct ChainRun {
    pub head: ChainNode,
    pub middle: ChainNode,
    pub tail: ChainNode,
}

// The nodes, with the ring that feeds the head.
struct Chain {
    ring: Producer<Passed>,
    head: Stage,
    middle: Stage,
    tail: Stage,
}

impl Chain {
    // Three nodes that are passed at most so many entries.
    fn new<R: Wait>(rt: &R, alloc: Global, most: u32) -> Result<Chain, NoMemory>
        ensures { IfOk result (IsReadyChain most) }
    {
        let room = most as usize;
        let (ring, from_feed) = ring_for(alloc, room)?;
        let (into_middle, from_head) = ring_for(alloc, room)?;
        let (into_tail, from_middle) = ring_for(alloc, room)?;
        let head_counts = ring_for(alloc, room)?;
        let middle_counts = ring_for(alloc, room)?;
        let tail_counts = ring_for(alloc, room)?;
        let (head, middle, tail) = three_copies(rt, alloc)?;
        Ok(Chain {
            ring,
            head: Stage::new(
                alloc,
                1,
                most,
                head,
                from_feed,
                Some(into_middle),
                head_counts,
            ),
            middle: Stage::new(
                alloc,
                2,
                most,
                middle,
                from_head,
                Some(into_tail),
                middle_counts,
            ),
            tail: Stage::new(alloc, 3, most, tail, from_middle, None, tail_counts),
        })
    }

    // Compares both ends of each ring, and ends the copies. What is left is what came of each node.
    fn end<R: Wait>(self, rt: &R, plan: &ChainPlan) -> Result<ChainRun, NoMemory>
        requires run { HasRunChain plan.now.queries self }
        requires fed { sent self.ring ≡ whole plan.now.entries }
        ensures { IfOk result (λ run. ChainLawful plan.now run) }
    {
        let Chain {
            mut ring,
            mut head,
            mut middle,
            mut tail,
        } = self;
        compare(&mut ring, &mut head.node.from);
        compare_next(&mut head.node.next, &mut middle.node.from);
        compare_next(&mut middle.node.next, &mut tail.node.from);
        let head = head.end(rt, &plan.queries);
        let middle = middle.end(rt, &plan.queries);
        let tail = tail.end(rt, &plan.queries);
        Ok(ChainRun {
            head: head?,
            middle: middle?,
            tail: tail?,
        })
    }

    // Ends the copies alone.
    fn let_go<R: Wait>(self, rt: &R) {
        let Chain {
            ring: _,
            head,
            middle,
            tail,
        } = self;
        head.let_go(rt);
        middle.let_go(rt);
        tail.let_go(rt);
    }
}

// The middle and the tail run, each with its reader.
fn run_two<R: Threads + Wait + Sync, G: Gate + Sync>(
    rt: &R,
    alloc: Global,
    plan: &ChainPlan,
    gate: &G,
    middle: &mut Stage,
    tail: &mut Stage,
)
    requires middle { IsReady middle.old.teller.node middle.old }
    requires tail { IsReady tail.old.teller.node tail.old }
    requires few { length plan.now.queries < 2 ^ 32 }
    ensures same_middle { IsSameStage middle.old middle.new }
    ensures middle { HasRun plan.now.queries middle.new }
    ensures same_tail { IsSameStage tail.old tail.new }
    ensures tail { HasRun plan.now.queries tail.new }
{
    join_mut(
        rt,
        &mut ||
            requires { IsReady tail.now.teller.node tail.now × (length plan.now.queries < 2 ^ 32) }
        { tail.run(rt, alloc, gate, &plan.queries) },
        &mut ||
            requires { IsReady middle.now.teller.node middle.now × (length plan.now.queries < 2 ^ 32) }
        { middle.run(rt, alloc, gate, &plan.queries) },
    );
}

// All nodes run, each with its reader.
fn run_three<R: Threads + Wait + Sync, G: Gate + Sync>(
    rt: &R,
    alloc: Global,
    plan: &ChainPlan,
    gate: &G,
    head: &mut Stage,
    middle: &mut Stage,
    tail: &mut Stage,
)
    requires head { IsReady head.old.teller.node head.old }
    requires middle { IsReady middle.old.teller.node middle.old }
    requires tail { IsReady tail.old.teller.node tail.old }
    requires few { length plan.now.queries < 2 ^ 32 }
    ensures same_head { IsSameStage head.old head.new }
    ensures head { HasRun plan.now.queries head.new }
    ensures same_middle { IsSameStage middle.old middle.new }
    ensures middle { HasRun plan.now.queries middle.new }
    ensures same_tail { IsSameStage tail.old tail.new }
    ensures tail { HasRun plan.now.queries tail.new }
{
    join_mut(
        rt,
        &mut ||
            requires { IsReady middle.now.teller.node middle.now × IsReady tail.now.teller.node tail.now
                × (length plan.now.queries < 2 ^ 32) }
        { run_two(rt, alloc, plan, gate, middle, tail) },
        &mut ||
            requires { IsReady head.now.teller.node head.now × (length plan.now.queries < 2 ^ 32) }
        { head.run(rt, alloc, gate, &plan.queries) },
    );
}

impl Chain {
    // The feeder, the nodes and their readers run at the same time. Where no thread can be made, they run one after the other,
    // in this order.
    fn run<R: Threads + Wait + Sync, G: Gate + Sync>(
        &mut self,
        rt: &R,
        alloc: Global,
        plan: &ChainPlan,
        gate: &G,
    ) -> Result<(), NoMemory>
        requires ready { IsReadyChain (length plan.now.entries) self.old }
        requires few { length plan.now.queries < 2 ^ 32 }
        ensures run { HasRunChain plan.now.queries self.new }
        ensures fed { OnOk result (sent self.new.ring ≡ whole plan.now.entries) }
    {
        let ring = &mut self.ring;
        let head = &mut self.head;
        let middle = &mut self.middle;
        let tail = &mut self.tail;
        let (_, fed) = join_mut(
            rt,
            &mut ||
                requires { IsReady head.now.teller.node head.now × IsReady middle.now.teller.node middle.now
                    × IsReady tail.now.teller.node tail.now × (length plan.now.queries < 2 ^ 32) }
            { run_three(rt, alloc, plan, gate, head, middle, tail) },
            &mut || feed(alloc, &plan.entries, ring),
        );
        fed
    }
}

/// Runs a plan by a head, a middle and a tail, each a thread with its own copies of the order and a reader's thread beside it.
/// It waits for all of them.
///
/// The entries go along rings, from the caller's thread to the head and from node to node; each ring has room for all, so no
/// push waits. A node calls the gate before it applies an entry, with its own number, 1 to 3, as the client's and the entry's
/// place, at `Holding`. A reader answers the queries of its node in the order of the plan, each after at least as many entries
/// as it asks for; it calls the gate with the node's number and the query's, counted from 1, at `Before` and `After`.
///
/// `NoMemory` where there is none for a ring, the copies, an entry or an answer: a node that finds none takes what is left of
/// its ring without applying it. It comes too where a query asks for more entries than the plan has, as none does of a plan
/// that was read.
pub fn run_chain<R: Threads + Wait + Sync, G: Gate + Sync>(
    rt: &R,
    alloc: Global,
    plan: &ChainPlan,
    gate: &G,
) -> Result<ChainRun, NoMemory>
    requires few { length plan.now.entries < 2 ^ 32 }
    requires few_queries { length plan.now.queries < 2 ^ 32 }
    ensures { IfOk result (λ run. ChainLawful plan.now run) }
{
    let mut chain = Chain::new(rt, alloc, plan.entries.len() as u32)?;
    match chain.run(rt, alloc, plan, gate) {
        Ok(()) => chain.end(rt, plan),
        Err(NoMemory) => {
            chain.let_go(rt);
            Err(NoMemory)
        }
    }
}
