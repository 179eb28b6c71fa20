//! The run of a load: its steps are done, what they came to is counted, and the summary is written.

ghost use Rattle.std.specs.Prelude.{◌≡◌, ◌*◌, ◌<◌, ◌≤◌, ◌^◌, false, length, map, All, IfOk, OnOk};
ghost use Rattle.script_lang.specs.Number.{IsFromOneTo};
ghost use Rattle.script_lang.specs.Script.{IsScript};
ghost use Rattle.kr_world.specs.Round.{IsStep};
ghost use Rattle.load_gen.specs.Summary.{load_text, summary_of};
ghost use Rattle.kronos_runs.specs.EndsOn.{EndsOnLoad};
ghost use Rattle.kronos_runs.specs.Loads.{counts_of, last_cluster};

use crate::exit::Exit;
use cluster_sim::Cluster;
use kr_order::{DoneEntry, NoMemory};
use kr_text::{Sink, WriteStop, write_all};
use load_gen::{Summary, calls, make};
use order_state::State;
use script_lang::Script;
use std::alloc::Global;
use std::thread::Threads;

/// Runs the load of so many rounds, and writes its summary.
pub fn run_load<R: Threads + Sync, K: Sink>(
    rt: &R,
    alloc: Global,
    rounds: u32,
    sink: &mut K,
) -> Exit
    requires { IsFromOneTo 2000 rounds }
    ensures { EndsOnLoad result rounds (K.held sink.old) (K.held sink.new) (K.faults sink.old) (K.faults sink.new) }
{
    let text = match text_of(rt, alloc, rounds) {
        Ok(text) => text,
        Err(_) => return Exit::NoMemory,
    };
    match write_all(sink, text.as_slice()) {
        Ok(()) => Exit::Done,
        Err(WriteStop::Fault) => Exit::WriteFault,
    }
}

// The text of the load's summary.
fn text_of<R: Threads + Sync>(rt: &R, alloc: Global, rounds: u32) -> Result<Vec<u8>, NoMemory>
    requires { IsFromOneTo 2000 rounds }
    ensures { IfOk result (λ text. text.items ≡ load_text rounds) }
{
    let script = make(alloc, rounds)?;
    let summary = summary_of(rt, alloc, &script)?;
    summary.text(alloc)
}

// The summary of the script's run.
fn summary_of<R: Threads + Sync>(
    rt: &R,
    alloc: Global,
    script: &Script,
) -> Result<Summary, NoMemory>
    requires fit { IsScript script.now }
    requires steps { All IsStep script.now.events }
    requires few { length script.now.events ≤ 2 ^ 58 }
    ensures { IfOk result (λ summary. summary ≡ summary_of script.now) }
{
    let cluster = cluster_after(rt, alloc, script)?;
    let calls = calls(script.events.as_slice()) as u64;
    counts(alloc, calls, &cluster)
}

// The cluster after all steps of the script, whose lines are let go.
fn cluster_after<R: Threads + Sync>(
    rt: &R,
    alloc: Global,
    script: &Script,
) -> Result<Cluster, NoMemory>
    requires fit { IsScript script.now }
    requires steps { All IsStep script.now.events }
    requires few { length script.now.events ≤ 2 ^ 58 }
    ensures { IfOk result (λ cluster. cluster ≡ last_cluster script.now) }
{
    // a proof step: the law does nothing when it runs
    kr_world::laws::befores_are_few();
    let mut cluster = Cluster::new(alloc, script.servers, script.clients)?;
    let mut lines = Vec::new(alloc);
    let events = script.events.as_slice();
    for event in events {
        lines.clear();
        cluster.step_onto(rt, event, &mut lines)?;
    }
    Ok(cluster)
}

// What is counted of the cluster after so many calls.
fn counts(alloc: Global, calls: u64, cluster: &Cluster) -> Result<Summary, NoMemory>
    requires { cluster.now.failed ≡ false }
    ensures { IfOk result (λ summary. summary ≡ counts_of calls cluster.now) }
{
    let journal = cluster.journal().as_slice();
    let state = state_after(alloc, journal)?;
    Ok(Summary {
        calls,
        history: state.count(),
        packets: cluster.packets(),
        born: state.born(),
        held: state.held(),
        pairs: state.pairs_held(),
        before: cluster.befores(),
    })
}

// The state of the order after the entries of the journal.
fn state_after(alloc: Global, journal: &[DoneEntry]) -> Result<State, NoMemory>
    ensures { IfOk result (λ state. state.history ≡ map (λ done. done.entry) journal.now) }
{
    let mut state = State::new(alloc);
    for done in journal {
        let prepared = state.prepare(&done.entry)?;
        let _ = state.apply(prepared);
    }
    Ok(state)
}
