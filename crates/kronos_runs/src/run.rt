//! A script's run, written step by step.

ghost use Rattle.std.specs.Prelude.{◌≡◌, ◌<◌, ◌^◌, ◌-◌, ◌++◌, [], length, All};
ghost use Rattle.script_lang.specs.Event.{IsEvent};
ghost use Rattle.script_lang.specs.Script.{IsScript};
ghost use Rattle.kr_world.specs.Lines.{end_lines};
ghost use Rattle.kr_world.specs.Run.{text_of};
ghost use Rattle.kr_world.specs.Sound.{HaveBegun};
ghost use Rattle.kronos_runs.specs.Runs.{IsWritten, RunsEvents, Turns};

use cluster_sim::Cluster;
use kr_order::NoMemory;
use kr_text::{Sink, WriteStop, write_all};
use script_lang::{Event, Script};
use std::alloc::{AllocError, Global};
use std::thread::Threads;

/// Why a run ends before its text does.
#[derive(Clone, Copy, Debug, PartialEq, Eq)]
pub enum RunError {
    /// A write failed.
    Write,
    /// There was no memory.
    Memory,
}

impl From<WriteStop> for RunError {
    ghost use Rattle.std.specs.Prelude.{◌≡◌};
    ghost use Rattle.kronos_runs.specs.declared.run.RunError.TheVariants.{Write};

    ghost from_gives = { λ _ stop. stop ≡ Write };

    fn from(_: WriteStop) -> Self {
        RunError::Write
    }
}

impl From<AllocError> for RunError {
    ghost use Rattle.std.specs.Prelude.{◌≡◌};
    ghost use Rattle.kronos_runs.specs.declared.run.RunError.TheVariants.{Memory};

    ghost from_gives = { λ _ stop. stop ≡ Memory };

    fn from(_: AllocError) -> Self {
        RunError::Memory
    }
}

impl From<NoMemory> for RunError {
    ghost use Rattle.std.specs.Prelude.{◌≡◌};
    ghost use Rattle.kronos_runs.specs.declared.run.RunError.TheVariants.{Memory};

    ghost from_gives = { λ _ stop. stop ≡ Memory };

    fn from(_: NoMemory) -> Self {
        RunError::Memory
    }
}

// So many bytes are gathered before they are written.
const PIECE: usize = 65_536;

/// Runs the script, and writes its text: the lines of all its steps, gathered into pieces, and then those of the history.
pub fn run<R: Threads + Sync, K: Sink>(
    rt: &R,
    alloc: Global,
    script: &Script,
    sink: &mut K,
) -> Result<(), RunError>
    requires fit { IsScript script.now }
    requires few { length script.now.events < 2 ^ 63 }
    ensures { IsWritten (text_of script.now) result (K.held sink.old) (K.held sink.new) (K.faults sink.old) (K.faults sink.new) }
{
    let mut cluster = match Cluster::new(alloc, script.servers, script.clients) {
        Ok(cluster) => cluster,
        Err(_) => return Err(RunError::Memory),
    };
    let mut gathered = Vec::new(alloc);
    match run_events(
        rt,
        &mut cluster,
        script.events.as_slice(),
        &mut gathered,
        sink,
    ) {
        Ok(()) => finish(&cluster, gathered.as_slice(), sink),
        Err(stop) => Err(stop),
    }
}

// Does what the lines say, one after the other, and gathers and writes the lines of their steps.
fn run_events<R: Threads + Sync, K: Sink>(
    rt: &R,
    cluster: &mut Cluster,
    events: &[Event],
    gathered: &mut Vec<u8>,
    sink: &mut K,
) -> Result<(), RunError>
    requires each { All IsEvent events.now }
    requires none { gathered.old.items ≡ [] }
    requires first { HaveBegun 0 cluster.old.world.clients }
    requires few { length events.now < 2 ^ 63 }
    ensures { RunsEvents cluster.old events.now result cluster.new gathered.new.items (K.held sink.old) (K.held sink.new)
        (K.faults sink.old) (K.faults sink.new) }
{
    for event in events {
        match turn(rt, cluster, event, gathered, sink) {
            Ok(()) => {}
            Err(stop) => return Err(stop),
        }
    }
    Ok(())
}

// Does what one line says and gathers the lines of its steps; where there are enough for a piece, they are written.
fn turn<R: Threads + Sync, K: Sink>(
    rt: &R,
    cluster: &mut Cluster,
    event: &Event,
    gathered: &mut Vec<u8>,
    sink: &mut K,
) -> Result<(), RunError>
    requires event { IsEvent event.now }
    requires few { HaveBegun (2 ^ 63 - 1) cluster.old.world.clients }
    ensures { Turns cluster.old event.now gathered.old.items result cluster.new gathered.new.items (K.held sink.old) (K.held sink.new)
        (K.faults sink.old) (K.faults sink.new) }
{
    cluster.step_onto(rt, event, gathered)?;
    if gathered.len() < PIECE {
        return Ok(());
    }
    write_all(sink, gathered.as_slice())?;
    gathered.clear();
    Ok(())
}

// Writes the lines that are gathered, and then those of the history.
fn finish<K: Sink>(cluster: &Cluster, gathered: &[u8], sink: &mut K) -> Result<(), RunError>
    ensures { IsWritten (gathered.now ++ end_lines cluster.now.world.history) result (K.held sink.old) (K.held sink.new)
        (K.faults sink.old) (K.faults sink.new) }
{
    match write(sink, gathered) {
        Ok(()) => write_history(cluster, sink),
        Err(stop) => Err(stop),
    }
}

// Writes the lines of the history.
fn write_history<K: Sink>(cluster: &Cluster, sink: &mut K) -> Result<(), RunError>
    ensures { IsWritten (end_lines cluster.now.world.history) result (K.held sink.old) (K.held sink.new) (K.faults sink.old)
        (K.faults sink.new) }
{
    match cluster.finish() {
        Ok(ending) => write(sink, ending.as_slice()),
        Err(_) => Err(RunError::Memory),
    }
}

/// Writes the text.
pub fn write<K: Sink>(sink: &mut K, text: &[u8]) -> Result<(), RunError>
    ensures { IsWritten text.now result (K.held sink.old) (K.held sink.new) (K.faults sink.old) (K.faults sink.new) }
{
    match write_all(sink, text) {
        Ok(()) => Ok(()),
        Err(WriteStop::Fault) => Err(RunError::Write),
    }
}
