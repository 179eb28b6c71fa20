//! The top call: words, whole input, its lines, and the run.

ghost use Rattle.std.specs.Prelude.{◌≡◌, ◌⊎◌, ℕ, List, map};
ghost use Rattle.std.specs.Rc.{rc_str_bytes};
ghost use Rattle.kronos_driver.specs.Ends.{Ends, AskForScript, AskForImport, IsServed, IsLoadServed, EndsAsImport};

use crate::form::{Form, form_of};
use kr_text::{Sink, Source};
use kronos_runs::{Exit, read_input, run_import, run_load, run_script, say_usage};
use std::alloc::Global;
use std::rc::RcStr;
use std::thread::Threads;

/// Runs the program: with the word `script` it reads the whole source as a script, of at most 1,048,576 bytes,
/// runs it step by step, and writes its transcript; with the word `import` it reads the source, no longer, as a log of
/// processes, and writes its events with their clocks, and its pairs, or the first line that closes a cycle; with the
/// words `load N` it reads nothing, runs the load of N rounds, 1 to 2,000, and writes its summary. Any other words are
/// no form. The answer is the first refusal that is met, in the order words, input, lines, run.
pub fn kronos_script<R: Threads + Sync, S: Source, K: Sink>(
    rt: &R,
    alloc: Global,
    words: &[RcStr],
    source: &mut S,
    sink: &mut K,
) -> Exit
    ensures ends { Ends result (map rc_str_bytes words.now)
        (record { left = S.left source.old; reads = S.faults source.old; held = K.held sink.old; writes = K.faults sink.old })
        (record { left = S.left source.new; reads = S.faults source.new; held = K.held sink.new; writes = K.faults sink.new }) }
    ensures complete { IsServed (map rc_str_bytes words.now)
        (record { left = S.left source.old; reads = S.faults source.old; held = K.held sink.old; writes = K.faults sink.old })
        (record { left = S.left source.new; reads = S.faults source.new; held = K.held sink.new; writes = K.faults sink.new })
        → (result ≡ Exit.Done) ⊎ (result ≡ Exit.NoMemory) }
    ensures complete_load { IsLoadServed (map rc_str_bytes words.now)
        (record { left = S.left source.old; reads = S.faults source.old; held = K.held sink.old; writes = K.faults sink.old })
        (record { left = S.left source.new; reads = S.faults source.new; held = K.held sink.new; writes = K.faults sink.new })
        → (result ≡ Exit.Done) ⊎ (result ≡ Exit.NoMemory) }
    ensures complete_import { EndsAsImport result (map rc_str_bytes words.now)
        (record { left = S.left source.old; reads = S.faults source.old; held = K.held sink.old; writes = K.faults sink.old })
        (record { left = S.left source.new; reads = S.faults source.new; held = K.held sink.new; writes = K.faults sink.new }) }
{
    // proof steps: the laws do nothing when they run
    script_lang::laws::bad_lines_are_in_no_script();
    clock_import::laws::bad_lines_are_in_no_log();
    clock_import::laws::the_bad_line_is_one();
    clock_import::laws::the_cyclic_line_is_one();
    clock_import::laws::cycles_are_in_no_import();
    run_words(rt, alloc, words, source, sink)
}

// The same, by its ends alone.
fn run_words<R: Threads + Sync, S: Source, K: Sink>(
    rt: &R,
    alloc: Global,
    words: &[RcStr],
    source: &mut S,
    sink: &mut K,
) -> Exit
    ensures { Ends result (map rc_str_bytes words.now)
        (record { left = S.left source.old; reads = S.faults source.old; held = K.held sink.old; writes = K.faults sink.old })
        (record { left = S.left source.new; reads = S.faults source.new; held = K.held sink.new; writes = K.faults sink.new }) }
{
    match form_of(words) {
        Some(Form::Script) => run_input(rt, alloc, source, sink),
        Some(Form::Load(rounds)) => run_load(rt, alloc, rounds, sink),
        Some(Form::Import) => import_input(alloc, source, sink),
        None => say_usage(sink),
    }
}

// Reads the whole input and runs it.
fn run_input<R: Threads + Sync, S: Source, K: Sink>(
    rt: &R,
    alloc: Global,
    source: &mut S,
    sink: &mut K,
) -> Exit
    ensures { (words : List (List ℕ)) → AskForScript words → Ends result words
        (record { left = S.left source.old; reads = S.faults source.old; held = K.held sink.old; writes = K.faults sink.old })
        (record { left = S.left source.new; reads = S.faults source.new; held = K.held sink.new; writes = K.faults sink.new }) }
{
    match read_input(alloc, source) {
        Ok(bytes) => run_script(rt, alloc, bytes.as_slice(), sink),
        Err(exit) => exit,
    }
}

// Reads the whole input and imports it.
fn import_input<S: Source, K: Sink>(alloc: Global, source: &mut S, sink: &mut K) -> Exit
    ensures { (words : List (List ℕ)) → AskForImport words → Ends result words
        (record { left = S.left source.old; reads = S.faults source.old; held = K.held sink.old; writes = K.faults sink.old })
        (record { left = S.left source.new; reads = S.faults source.new; held = K.held sink.new; writes = K.faults sink.new }) }
{
    match read_input(alloc, source) {
        Ok(bytes) => run_import(alloc, bytes.as_slice(), sink),
        Err(exit) => exit,
    }
}
