//! The run of the script that bytes spell, or their first bad line.

ghost use Rattle.std.specs.Prelude.{◌≡◌};
ghost use Rattle.kronos_runs.specs.Due.{bad_line};
ghost use Rattle.kronos_runs.specs.EndsOn.{EndsOnBytes};
ghost use Rattle.kronos_runs.specs.Runs.{IsWritten, exit_after};

use crate::exit::Exit;
use crate::run::{RunError, run};
use kr_text::{Sink, write_all};
use script_lang::{ScriptStop, read_script};
use std::alloc::Global;
use std::thread::Threads;

/// Reads the bytes as a script, runs it step by step and writes its transcript; or writes which line is the first that is
/// in no script. Ends in `Done`, `BadLine`, `WriteFault` or `NoMemory`, and in nothing else.
pub fn run_script<R: Threads + Sync, K: Sink>(
    rt: &R,
    alloc: Global,
    bytes: &[u8],
    sink: &mut K,
) -> Exit
    ensures { EndsOnBytes result bytes.now (K.held sink.old) (K.held sink.new) (K.faults sink.old) (K.faults sink.new) }
{
    // proof steps: the laws do nothing when they run
    kr_world::laws::runs_are_lawful();
    kr_calm::laws::runs_are_calm();
    let script = match read_script(alloc, bytes) {
        Ok(script) => script,
        Err(ScriptStop::BadLine(n)) => return exit_of(
            say_bad_line(alloc, sink, n),
            Exit::BadLine(n),
        ),
        Err(ScriptStop::NoMemory) => return Exit::NoMemory,
    };
    exit_of(run(rt, alloc, &script, sink), Exit::Done)
}

/// The exit of a call that writes.
pub fn exit_of(written: Result<(), RunError>, exit: Exit) -> Exit
    ensures { result ≡ exit_after written exit }
{
    match written {
        Ok(()) => exit,
        Err(RunError::Write) => Exit::WriteFault,
        Err(RunError::Memory) => Exit::NoMemory,
    }
}

/// Writes which line is bad.
pub fn say_bad_line<K: Sink>(alloc: Global, sink: &mut K, n: u64) -> Result<(), RunError>
    ensures { IsWritten (bad_line n) result (K.held sink.old) (K.held sink.new) (K.faults sink.old) (K.faults sink.new) }
{
    let line = format!(in alloc; "bad line {n}\n")?;
    write_all(sink, line.as_bytes())?;
    Ok(())
}
