//! The run of the chain whose input bytes spell, or their first bad line.

ghost use Rattle.std.specs.Prelude.{◌<◌, ◌^◌, length, IfOk};
ghost use Rattle.live_driver.specs.declared.form.Form.{Form};
ghost use Rattle.live_driver.specs.Due.{EndsOnInput, IsTextOfChain};

use crate::print::text_of_chain;
use kr_order::NoMemory;
use kr_text::{Gate, Sink};
use kronos_runs::{Exit, exit_of, say_bad_line, write};
use live_chain::run_chain;
use script_lang::{ChainPlan, ScriptStop, read_chain};
use std::alloc::Global;
use std::sync::Wait;
use std::thread::Threads;

// Reads the bytes as the input of a chain, runs its nodes, and writes what came of them.
pub(crate) fn run_nodes<R: Threads + Wait + Sync, K: Sink, G: Gate + Sync>(
    rt: &R,
    alloc: Global,
    bytes: &[u8],
    sink: &mut K,
    gate: &G,
) -> Exit
    requires few { length bytes.now < 2 ^ 32 }
    ensures { EndsOnInput Form.Chain result bytes.now (K.held sink.old) (K.held sink.new) (K.faults sink.old)
        (K.faults sink.new) }
{
    // proof step: the law does nothing when it runs
    script_lang::chain_laws::chain_plans_are_no_longer_than_their_bytes();
    let plan = match read_chain(alloc, bytes) {
        Ok(plan) => plan,
        Err(ScriptStop::BadLine(n)) => return exit_of(
            say_bad_line(alloc, sink, n),
            Exit::BadLine(n),
        ),
        Err(ScriptStop::NoMemory) => return Exit::NoMemory,
    };
    let text = match text_of_nodes(rt, alloc, &plan, gate) {
        Ok(text) => text,
        Err(_) => return Exit::NoMemory,
    };
    exit_of(write(sink, text.as_slice()), Exit::Done)
}

// The text of what came of the plan's nodes.
fn text_of_nodes<R: Threads + Wait + Sync, G: Gate + Sync>(
    rt: &R,
    alloc: Global,
    plan: &ChainPlan,
    gate: &G,
) -> Result<Vec<u8>, NoMemory>
    requires few { length plan.now.entries < 2 ^ 32 }
    requires few_queries { length plan.now.queries < 2 ^ 32 }
    ensures { IfOk result (λ text. IsTextOfChain plan.now text.items) }
{
    let run = run_chain(rt, alloc, plan, gate)?;
    text_of_chain(alloc, &run)
}
