//! What every form has: the whole input, and the usage line where the words are no form.

ghost use Rattle.kronos_runs.specs.Outside.{ReadsInput, EndsOnUsage};

use crate::exit::Exit;
use kr_text::{ReadStop, Sink, Source, WriteStop, read_all, write_all};
use std::alloc::Global;

// The greatest number of bytes of an input.
const INPUT_LIMIT: usize = 1_048_576;

// What is written where the words are no form.
const USAGE: &[u8] = b"usage: kronos script, load N, live, audit, import, chain\n";

/// Reads the whole input, of at most 1,048,576 bytes. In place of its bytes comes how the program ends: `TooLong` exactly
/// where the source gave a byte more, `ReadFault` where a read failed, `NoMemory`, and nothing else.
pub fn read_input<S: Source>(alloc: Global, source: &mut S) -> Result<Vec<u8>, Exit>
    ensures { ReadsInput result (S.left source.old) (S.left source.new) (S.faults source.old) (S.faults source.new) }
{
    match read_all(alloc, source, INPUT_LIMIT) {
        Ok(bytes) => Ok(bytes),
        Err(ReadStop::Fault) => Err(Exit::ReadFault),
        Err(ReadStop::TooLong) => Err(Exit::TooLong),
        Err(ReadStop::NoMemory) => Err(Exit::NoMemory),
    }
}

/// Writes the usage line. Ends in `Usage` or `WriteFault`, and in nothing else.
pub fn say_usage<K: Sink>(sink: &mut K) -> Exit
    ensures { EndsOnUsage result (K.held sink.old) (K.held sink.new) (K.faults sink.old) (K.faults sink.new) }
{
    match write_all(sink, USAGE) {
        Ok(()) => Exit::Usage,
        Err(WriteStop::Fault) => Exit::WriteFault,
    }
}
