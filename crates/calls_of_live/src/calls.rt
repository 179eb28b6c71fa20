//! The program's `live` over a source and a sink in memory.

use kr_text::{FailingSink, FailingSource, Gate};
use live_driver::{Exit, kronos_live};
use std::alloc::{AllocError, Global};
use std::rc::RcStr;
use std::sync::Wait;
use std::test::Fail;
use std::thread::Threads;

/// The words of a call.
pub fn words_of(alloc: Global, texts: &[&str]) -> Result<Vec<RcStr>, AllocError> {
    let mut words = Vec::new(alloc);
    for text in texts {
        words.push(RcStr::from_str(alloc, text)?)?;
    }
    Ok(words)
}

/// A source of these bytes whose read of this number fails, from 1.
pub fn source_of(alloc: Global, bytes: &[u8], fails: u64) -> Result<FailingSource, AllocError> {
    Ok(FailingSource::new(bytes.to_vec(alloc)?, [fails].to_vec(alloc)?))
}

/// A sink with room for so many bytes whose write of this number fails, from 1.
pub fn sink_of(alloc: Global, room: usize, fails: u64) -> Result<FailingSink, Fail> {
    Ok(FailingSink::new(alloc, room, [fails].to_vec(alloc)?)?)
}

/// The end of `live` over these, by way of a gate.
pub fn end_of<R: Threads + Wait + Sync, G: Gate + Sync>(
    rt: &R,
    alloc: Global,
    source: &mut FailingSource,
    sink: &mut FailingSink,
    gate: &G,
) -> Result<Exit, AllocError> {
    let words = words_of(alloc, &["live"])?;
    Ok(kronos_live(rt, alloc, &words, source, sink, gate))
}

/// What the sink holds, as text; none where it is no text.
pub fn text_of(sink: &FailingSink) -> &str {
    str::from_utf8(sink.bytes()).unwrap_or("")
}
