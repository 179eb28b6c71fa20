//! Runs of small plans: what they tell, and that nodes and readers run at the same time.

use kr_order::{Answer, ClientId, NoMemory};
use kr_text::{Gate, OpenGate, Point};
use live_chain::{ChainNode, ChainRun, run_chain};
use script_lang::read_chain;
use std::alloc::Global;
use std::sync::Wait;
use std::sync::atomic::{AtomicBool, Ordering};
use std::test::Fail;
use std::thread;
use std::thread::Threads;

// Two events are made and bound, and both ends are asked after that.
const BOTH_ENDS: &str = "\
chain
create 1
create 1
assign 1 1!2
query 1 3 1,2
query 3 3 2,1
";

// Two events are made, and each node is asked after the first.
const ALL_ASKED: &str = "\
chain
create 1
query 1 1 1,1
query 2 1 1,1
query 3 1 1,1
create 2
";

// How often a thread is kept for another.
const TURNS: u32 = 1_000_000;

// Where a thread is: the number of its node, that of its query or of the entry, and the point.
type Place = (u32, u32, Point);

// Keeps the thread that comes to a place until another has come to a second, or for all turns.
#[derive(Drop)]
struct Hold {
    kept: Place,
    until: Place,
    came: AtomicBool,
    in_vain: AtomicBool,
}

impl Hold {
    fn new(kept: Place, until: Place) -> Hold {
        Hold {
            kept,
            until,
            came: AtomicBool::new(false),
            in_vain: AtomicBool::new(false),
        }
    }
}

impl Gate for Hold {
    fn at(&self, client: ClientId, call: u32, point: Point) {
        let here = (client.0, call, point);
        if here == self.until {
            self.came.store(true, Ordering::SeqCst);
        }
        if here == self.kept {
            for _ in 0..TURNS {
                if self.came.load(Ordering::SeqCst) {
                    return;
                }
                thread::yield_now();
            }
            self.in_vain.store(true, Ordering::SeqCst);
        }
    }
}

// The run of the text's plan.
fn run_text<R: Threads + Wait + Sync, G: Gate + Sync>(
    rt: &R,
    alloc: Global,
    text: &str,
    gate: &G,
) -> Result<ChainRun, Fail> {
    let plan = read_chain(alloc, text.as_bytes())?;
    if plan.entries.len() > 100 || plan.queries.len() > 100 {
        return Err(Fail::from(NoMemory));
    }
    Ok(run_chain(rt, alloc, &plan, gate)?)
}

// After how many entries the node's first query was answered, and the answer to its first pair.
fn first_told(node: &ChainNode) -> Option<(u64, Option<Answer>)> {
    let told = node.told.get(0)?;
    Some((told.entry, told.answers.get(0).copied()))
}

#[test]
fn both_ends_tell_of_one_order(rt: HostRuntime) -> Result<(), Fail> {
    let run = run_text(&rt, rt.alloc(), BOTH_ENDS, &OpenGate)?;
    assert_eq!(rt; first_told(&run.head), Some((3, Some(Answer::Before))));
    assert_eq!(rt; first_told(&run.middle), None);
    assert_eq!(rt; first_told(&run.tail), Some((3, Some(Answer::After))));
    assert_eq!(rt; run.head.journal.len(), 3);
    assert_eq!(rt; run.tail.journal.len(), 3);
    Ok(())
}

#[test]
fn the_readers_of_the_ends_wait_for_one_another(rt: HostRuntime) -> Result<(), Fail> {
    let first = Hold::new((1, 1, Point::Before), (3, 1, Point::After));
    run_text(&rt, rt.alloc(), ALL_ASKED, &first)?;
    assert!(rt; !first.in_vain.load(Ordering::SeqCst));
    let last = Hold::new((3, 1, Point::Before), (1, 1, Point::After));
    run_text(&rt, rt.alloc(), ALL_ASKED, &last)?;
    assert!(rt; !last.in_vain.load(Ordering::SeqCst));
    Ok(())
}

#[test]
fn the_tail_has_no_entry_that_the_head_has_not_applied(rt: HostRuntime) -> Result<(), Fail> {
    let hold = Hold::new((1, 1, Point::Holding), (3, 1, Point::After));
    run_text(&rt, rt.alloc(), ALL_ASKED, &hold)?;
    assert!(rt; hold.in_vain.load(Ordering::SeqCst));
    assert!(rt; hold.came.load(Ordering::SeqCst));
    Ok(())
}
