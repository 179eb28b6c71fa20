//! A node with the reader beside it.

ghost use Rattle.std.specs.Prelude.{◌≡◌, ◌<◌, ◌+◌, ◌^◌, [], length, IfOk, false};
ghost use Rattle.kr_order.specs.Done.{done_of};
ghost use Rattle.kr_order.specs.Prefix.{IsPrefix};
ghost use Rattle.rtrb.specs.Ring.{sent, received, known_free};
ghost use Rattle.live_chain.specs.Lawful.{AreToldAfter, queries_of};
ghost use Rattle.live_chain.specs.Nodes.{AreFresh};
ghost use Rattle.live_chain.specs.Rings.{HasPlaces, WasSent};
ghost use Rattle.live_chain.specs.Stages.{HasNoted, HasRun, IsReady, IsSameStage};

use crate::ChainNode;
use crate::copies::Copies;
use crate::node::Node;
use crate::reader::{Teller, Tolds};
use crate::ring::{Counted, Passed};
use kr_order::{DoneList, NoMemory};
use kr_text::Gate;
use order_board::{BoardReader, BoardWriter};
use rtrb::{Consumer, Producer};
use script_lang::ChainQueries;
use std::alloc::Global;
use std::sync::Wait;
use std::thread;
use std::thread::{Threads, join_mut};

// A node, and the reader of its copies.
pub struct Stage {
    pub node: Node,
    pub teller: Teller,
}

// Waits until the reader knows of no more than was published.
fn settle<R: Wait>(rt: &R, writer: &BoardWriter, reader: &mut BoardReader)
    requires { writer.now.copies ≡ reader.old.copies }
    ensures { IsPrefix reader.old.list writer.now.list }
{
    for _ in rt.forever() {
        reader.learn(&writer.tell());
        if reader.seen() <= writer.count() {
            return;
        }
        thread::yield_now();
    }
    unreachable!()
}

impl Stage {
    // A node of this number with its reader, which is passed at most so many entries by its ring.
    pub(crate) fn new(
        alloc: Global,
        number: u32,
        most: u32,
        copies: Copies,
        from: Consumer<Passed>,
        next: Option<Producer<Passed>>,
        counts: (Producer<Counted>, Consumer<Counted>),
    ) -> Stage
        requires copies { AreFresh copies }
        requires from { received from ≡ [] }
        requires next { WasSent [] next × HasPlaces (most + 1) next }
        requires counts { (sent counts.0 ≡ []) × (known_free counts.0 ≡ most + 1) }
        ensures ready { IsReady number result }
        ensures from { result.node.from ≡ from }
        ensures next { result.node.next ≡ next }
    {
        let Copies { writer, reader } = copies;
        let (counts, counted) = counts;
        Stage {
            node: Node {
                number,
                most,
                writer,
                journal: Vec::new(alloc),
                from,
                next,
                counts,
                failed: false,
            },
            teller: Teller {
                node: number,
                reader,
                counts: counted,
                count: 0,
                number: 0,
                told: Tolds::new(alloc),
                failed: false,
            },
        }
    }

    // The node applies what it is passed, and its reader answers beside it.
    pub(crate) fn run<R: Threads + Wait + Sync, G: Gate + Sync>(
        &mut self,
        rt: &R,
        alloc: Global,
        gate: &G,
        queries: &ChainQueries,
    )
        requires ready { IsReady self.old.teller.node self.old }
        requires few { length queries.now < 2 ^ 32 }
        ensures same { IsSameStage self.old self.new }
        ensures run { HasRun queries.now self.new }
    {
        let node = &mut self.node;
        let teller = &mut self.teller;
        join_mut(
            rt,
            &mut || teller.run(rt, gate, queries),
            &mut || node.run(rt, alloc, gate),
        );
    }

    // Ends the copies alone.
    pub(crate) fn let_go<R: Wait>(self, rt: &R) {
        let Stage { node, teller: _ } = self;
        let Node {
            number: _,
            most: _,
            writer,
            journal: _,
            from: _,
            next: _,
            counts: _,
            failed: _,
        } = node;
        writer.end(rt);
    }

    // Ends the copies. What is left is what the reader told, and the journal. `NoMemory` where the node or its reader failed.
    pub(crate) fn end<R: Wait>(self, rt: &R, queries: &ChainQueries) -> Result<ChainNode, NoMemory>
        requires run { HasNoted queries.now self }
        ensures { IfOk result (λ made. (self.node.failed ≡ false) × (made.journal ≡ done_of self.node.writer.list)
            × AreToldAfter self.node.writer.list 0 (queries_of self.teller.node queries.now) made.told) }
    {
        let Stage { node, teller } = self;
        let Node {
            number: _,
            most: _,
            writer,
            journal,
            from: _,
            next: _,
            counts: _,
            failed,
        } = node;
        let Teller {
            node: _,
            mut reader,
            counts: _,
            count: _,
            number: _,
            told,
            failed: unanswered,
        } = teller;
        settle(rt, &writer, &mut reader);
        writer.end(rt);
        if failed || unanswered {
            return Err(NoMemory);
        }
        Ok(ChainNode {
            told,
            journal: DoneList::from_vec(journal),
        })
    }
}
