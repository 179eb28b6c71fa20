//! The run of the live input that bytes spell, or their first bad line.

ghost use Rattle.std.specs.Prelude.{◌<◌, ◌^◌, length, All, IfOk};
ghost use Rattle.script_lang.specs.Live.{AreClients};
ghost use Rattle.live_service.specs.Lawful.{IsByOneOf};
ghost use Rattle.live_driver.specs.declared.form.Form.{Form as FormOf};
ghost use Rattle.live_driver.specs.Due.{EndsOnInput, IsTextOf};

use crate::form::Form;
use crate::nodes::run_nodes;
use crate::print::text_of_run;
use kr_order::NoMemory;
use kr_text::{Gate, Sink};
use kronos_runs::{Exit, exit_of, say_bad_line, write};
use live_service::run_live;
use script_lang::{LivePlan, ScriptStop, read_live};
use std::alloc::Global;
use std::sync::Wait;
use std::thread::Threads;

/// Runs what the bytes say, as the form has it, and writes its text; or writes which line is the first that is not in the
/// grammar. Ends in `Done`, `BadLine`, `WriteFault` or `NoMemory`, and in nothing else.
pub fn run_bytes<R: Threads + Wait + Sync, K: Sink, G: Gate + Sync>(
    rt: &R,
    alloc: Global,
    form: Form,
    bytes: &[u8],
    sink: &mut K,
    gate: &G,
) -> Exit
    requires few { length bytes.now < 2 ^ 32 }
    ensures { EndsOnInput form result bytes.now (K.held sink.old) (K.held sink.new) (K.faults sink.old) (K.faults sink.new) }
{
    match form {
        Form::Live => run_plan(rt, alloc, bytes, sink, gate),
        Form::Chain => run_nodes(rt, alloc, bytes, sink, gate),
    }
}

// Reads the bytes as live input, makes the calls, and writes what came of them.
fn run_plan<R: Threads + Wait + Sync, K: Sink, G: Gate + Sync>(
    rt: &R,
    alloc: Global,
    bytes: &[u8],
    sink: &mut K,
    gate: &G,
) -> Exit
    requires few { length bytes.now < 2 ^ 32 }
    ensures { EndsOnInput Form.Live result bytes.now (K.held sink.old) (K.held sink.new) (K.faults sink.old)
        (K.faults sink.new) }
{
    let plan = match read_live(alloc, bytes) {
        Ok(plan) => plan,
        Err(ScriptStop::BadLine(n)) => return exit_of(
            say_bad_line(alloc, sink, n),
            Exit::BadLine(n),
        ),
        Err(ScriptStop::NoMemory) => return Exit::NoMemory,
    };
    let text = match text_of_plan(rt, alloc, &plan, gate) {
        Ok(text) => text,
        Err(_) => return Exit::NoMemory,
    };
    exit_of(write(sink, text.as_slice()), Exit::Done)
}

// The text of what came of the plan's calls.
fn text_of_plan<R: Threads + Wait + Sync, G: Gate + Sync>(
    rt: &R,
    alloc: Global,
    plan: &LivePlan,
    gate: &G,
) -> Result<Vec<u8>, NoMemory>
    requires clients { AreClients plan.now.clients }
    requires each { All (IsByOneOf plan.now.clients) plan.now.calls }
    requires few { length plan.now.calls < 2 ^ 32 }
    ensures { IfOk result (λ text. IsTextOf plan.now text.items) }
{
    let run = run_live(rt, alloc, plan, gate)?;
    text_of_run(alloc, &run)
}
