//! The import of the log that bytes spell; or its first bad line, or the first line that closes a cycle.

ghost use Rattle.std.specs.Prelude.{◌≡◌, ◌≤◌, ◌<◌, ◌+◌, ◌++◌, ◌^◌, length, string_bytes, IfOk};
ghost use Rattle.clock_import.specs.Text.{import_text, event_lines, order_text, cyclic_line};
ghost use Rattle.kronos_runs.specs.Logs.{EndsOnLog};
ghost use Rattle.kronos_runs.specs.Runs.{IsWritten};

use crate::exit::Exit;
use crate::run::{RunError, write};
use crate::script::{exit_of, say_bad_line};
use clock_import::{Clocked, ImportStop, Imported, import, put_events, put_order};
use kr_order::{EventId, NoMemory};
use kr_text::Sink;
use std::alloc::{AllocError, Global};

// The lines of so many events are written at a time.
const AT_ONCE: usize = 128;

/// Imports the log that the bytes spell and writes its events with their clocks, and its pairs; or writes which line is the
/// first that is in no log, or which is the first whose pairs close a cycle. Ends in `Done`, `BadLine`, `Cyclic`,
/// `WriteFault` or `NoMemory`, and in nothing else.
pub fn run_import<K: Sink>(alloc: Global, bytes: &[u8], sink: &mut K) -> Exit
    ensures { EndsOnLog result bytes.now (K.held sink.old) (K.held sink.new) (K.faults sink.old) (K.faults sink.new) }
{
    let imported = match import(alloc, bytes) {
        Ok(imported) => imported,
        Err(ImportStop::BadLine(n)) => return exit_of(
            say_bad_line(alloc, sink, n),
            Exit::BadLine(n),
        ),
        Err(ImportStop::Cyclic { line }) => return exit_of(
            say_cyclic(alloc, sink, line),
            Exit::Cyclic { line },
        ),
        Err(ImportStop::NoMemory) => return Exit::NoMemory,
    };
    exit_of(write_import(alloc, sink, &imported), Exit::Done)
}

// Writes the text of the import.
fn write_import<K: Sink>(alloc: Global, sink: &mut K, imported: &Imported) -> Result<(), RunError>
    ensures { IsWritten (import_text imported.now) result (K.held sink.old) (K.held sink.new) (K.faults sink.old) (K.faults sink.new) }
{
    write_both(
        alloc,
        sink,
        imported.events.as_slice(),
        imported.pairs.as_slice(),
    )
}

// Writes the lines of the events, and then the pairs.
fn write_both<K: Sink>(
    alloc: Global,
    sink: &mut K,
    events: &[Clocked],
    pairs: &[(EventId, EventId)],
) -> Result<(), RunError>
    ensures { IsWritten (event_lines 1 events.now ++ order_text pairs.now) result (K.held sink.old) (K.held sink.new)
        (K.faults sink.old) (K.faults sink.new) }
{
    match write_events(alloc, sink, events) {
        Ok(()) => write_order(alloc, sink, pairs),
        Err(stop) => Err(stop),
    }
}

// Writes the lines of the events, so many at a time.
fn write_events<K: Sink>(alloc: Global, sink: &mut K, events: &[Clocked]) -> Result<(), RunError>
    ensures { IsWritten (event_lines 1 events.now) result (K.held sink.old) (K.held sink.new) (K.faults sink.old) (K.faults sink.new) }
{
    let mut piece = Vec::new(alloc);
    let mut before = 0;
    let mut rest = events;
    while !rest.is_empty() {
        let (first, others) = rest.split_at(rest.len().min(AT_ONCE));
        match write_some(sink, &mut piece, before, first) {
            Ok(()) => {}
            Err(stop) => return Err(stop),
        }
        before += first.len();
        rest = others;
    }
    Ok(())
}

// Writes the lines of these events, of which so many stand before.
fn write_some<K: Sink>(
    sink: &mut K,
    piece: &mut Vec<u8>,
    before: usize,
    events: &[Clocked],
) -> Result<(), RunError>
    requires some { 1 ≤ length events.now }
    requires few { before + length events.now < 2 ^ 63 }
    ensures { IsWritten (event_lines (before + 1) events.now) result (K.held sink.old) (K.held sink.new) (K.faults sink.old)
        (K.faults sink.new) }
{
    piece.clear();
    match put_events(piece, before, events) {
        Ok(()) => write(sink, piece.as_slice()),
        Err(_) => Err(RunError::Memory),
    }
}

// Writes the pairs.
fn write_order<K: Sink>(
    alloc: Global,
    sink: &mut K,
    pairs: &[(EventId, EventId)],
) -> Result<(), RunError>
    ensures { IsWritten (order_text pairs.now) result (K.held sink.old) (K.held sink.new) (K.faults sink.old) (K.faults sink.new) }
{
    match order_of(alloc, pairs) {
        Ok(text) => write(sink, text.as_slice()),
        Err(_) => Err(RunError::Memory),
    }
}

// The text of the pairs.
fn order_of(alloc: Global, pairs: &[(EventId, EventId)]) -> Result<Vec<u8>, NoMemory>
    ensures { IfOk result (λ text. text.items ≡ order_text pairs.now) }
{
    let mut text = Vec::new(alloc);
    put_order(&mut text, pairs)?;
    Ok(text)
}

// Writes which line closes a cycle.
fn say_cyclic<K: Sink>(alloc: Global, sink: &mut K, n: u64) -> Result<(), RunError>
    ensures { IsWritten (cyclic_line n) result (K.held sink.old) (K.held sink.new) (K.faults sink.old) (K.faults sink.new) }
{
    match line_of(alloc, n) {
        Ok(line) => write(sink, line.as_bytes()),
        Err(_) => Err(RunError::Memory),
    }
}

// The line that says so.
fn line_of(alloc: Global, n: u64) -> Result<String, AllocError>
    ensures { IfOk result (λ line. string_bytes line ≡ cyclic_line n) }
{
    format!(in alloc; "cyclic line {n}\n")
}
