//! The top call: words, whole input, its lines, and the run.

ghost use Rattle.std.specs.Prelude.{ℕ, List, map};
ghost use Rattle.std.specs.Rc.{rc_str_bytes};
ghost use Rattle.live_driver.specs.Forms.{AskFor};
ghost use Rattle.live_driver.specs.Ends.{Ends, EndsAsInput};

use crate::form::{Form, form_of};
use crate::run::run_bytes;
use kr_text::{Gate, Sink, Source};
use kronos_runs::{Exit, read_input, say_usage};
use std::alloc::Global;
use std::rc::RcStr;
use std::sync::Wait;
use std::thread::Threads;

/// Runs the forms that have threads: with the word `live` it reads the whole source as live input, of at most 1,048,576
/// bytes, makes the calls of each client on a thread of its own and by way of the gate, and writes what each was told, and
/// the history, which is one and lawful. With the word `chain` it reads the source as the input of a chain, runs its three
/// nodes and their readers on threads of their own and by way of the gate, and writes what each reader told, and the history,
/// which is that of all nodes. Any other words are no form. The answer is the first refusal that is met, in the
/// order words, input, lines, run. No promise is made that the call returns: a client waits for the turn of another.
///
/// `complete`: where no read and no write fails, input of at most so many bytes ends in `Done` where it is in the grammar
/// and in `BadLine` with its first bad line where it is not, or in `NoMemory`.
pub fn kronos_live<R: Threads + Wait + Sync, S: Source, K: Sink, G: Gate + Sync>(
    rt: &R,
    alloc: Global,
    words: &[RcStr],
    source: &mut S,
    sink: &mut K,
    gate: &G,
) -> Exit
    ensures ends { Ends result (map rc_str_bytes words.now)
        (record { left = S.left source.old; reads = S.faults source.old; held = K.held sink.old; writes = K.faults sink.old })
        (record { left = S.left source.new; reads = S.faults source.new; held = K.held sink.new; writes = K.faults sink.new }) }
    ensures complete { EndsAsInput result (map rc_str_bytes words.now)
        (record { left = S.left source.old; reads = S.faults source.old; held = K.held sink.old; writes = K.faults sink.old })
        (record { left = S.left source.new; reads = S.faults source.new; held = K.held sink.new; writes = K.faults sink.new }) }
{
    // proof steps: the laws do nothing when they run
    script_lang::laws::bad_live_lines_are_in_no_plan();
    script_lang::laws::the_bad_live_line_is_one();
    script_lang::chain_laws::bad_chain_lines_are_in_no_plan();
    script_lang::chain_laws::the_bad_chain_line_is_one();
    run_words(rt, alloc, words, source, sink, gate)
}

// The same, by its ends alone.
fn run_words<R: Threads + Wait + Sync, S: Source, K: Sink, G: Gate + Sync>(
    rt: &R,
    alloc: Global,
    words: &[RcStr],
    source: &mut S,
    sink: &mut K,
    gate: &G,
) -> Exit
    ensures { Ends result (map rc_str_bytes words.now)
        (record { left = S.left source.old; reads = S.faults source.old; held = K.held sink.old; writes = K.faults sink.old })
        (record { left = S.left source.new; reads = S.faults source.new; held = K.held sink.new; writes = K.faults sink.new }) }
{
    match form_of(words) {
        Some(form) => run_input(rt, alloc, form, source, sink, gate),
        None => say_usage(sink),
    }
}

// Reads the whole input and runs it.
fn run_input<R: Threads + Wait + Sync, S: Source, K: Sink, G: Gate + Sync>(
    rt: &R,
    alloc: Global,
    form: Form,
    source: &mut S,
    sink: &mut K,
    gate: &G,
) -> Exit
    ensures { (words : List (List ℕ)) → AskFor form words → Ends result words
        (record { left = S.left source.old; reads = S.faults source.old; held = K.held sink.old; writes = K.faults sink.old })
        (record { left = S.left source.new; reads = S.faults source.new; held = K.held sink.new; writes = K.faults sink.new }) }
{
    match read_input(alloc, source) {
        Ok(bytes) => run_bytes(rt, alloc, form, bytes.as_slice(), sink, gate),
        Err(exit) => exit,
    }
}
