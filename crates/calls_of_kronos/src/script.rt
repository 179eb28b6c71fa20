//! The top call, over sources and sinks in memory: an event is created, and reads and writes fail. Other runs of the
//! program stand in examples/ and rows/, and tools/check has its words and its bad lines.

use kr_text::{FailingSink, FailingSource, NoFaultSink, NoFaultSource};
use kronos_driver::{Exit, exit_without_faults, kronos_script};
use std::alloc::{AllocError, Global};
use std::rc::RcStr;
use std::test::Fail;
use std::thread::Threads;

const SCRIPT: &[u8] = b"\
cluster 1 1
create 1
deliver 1
deliver 2
";

const TRANSCRIPT: &[u8] = b"\
packet 1 c1 s1 request 1
grown 1
packet 2 s1 c1 reply 1 1
told c1 1 at 1 created 1
history 1
1 c1 1 create = created 1
end
";

// The exit, and what was written.
#[derive(Drop)]
struct Ended {
    exit: Exit,
    written: Vec<u8>,
}

/// The text of the script, at which no test has to look.
pub fn script() -> &'static [u8] {
    SCRIPT
}

// And of its transcript.
fn transcript() -> &'static [u8] {
    TRANSCRIPT
}

/// The word that asks for a script.
pub fn words(alloc: Global) -> Result<Vec<RcStr>, AllocError> {
    let mut words = Vec::new(alloc);
    let Ok(()) = words.push(RcStr::from_str(alloc, "script")?) else {
        return Err(AllocError);
    };
    Ok(words)
}

// A source of the script whose read of this number fails, from 1.
fn source(alloc: Global, fails: u64) -> Result<FailingSource, AllocError> {
    Ok(FailingSource::new(script().to_vec(alloc)?, [fails].to_vec(alloc)?))
}

// The program's end where the read of this number fails, and the write of this number.
fn run_with<R: Threads + Sync>(
    rt: &R,
    alloc: Global,
    read: u64,
    write: u64,
) -> Result<Ended, Fail> {
    let words = words(alloc)?;
    let mut source = source(alloc, read)?;
    let mut sink = FailingSink::new(alloc, 1024, [write].to_vec(alloc)?)?;
    let exit = kronos_script(rt, alloc, &words, &mut source, &mut sink);
    let written = sink.bytes().to_vec(alloc)?;
    Ok(Ended { exit, written })
}

// Its status, and how many bytes of the transcript were written; none where it was another text.
fn status_and_length(ended: &Ended) -> (u8, usize) {
    let length = if transcript().starts_with(&ended.written) {
        ended.written.len()
    } else {
        usize::MAX
    };
    (ended.exit.status(), length)
}

#[test]
fn an_event_is_created(rt: HostRuntime) -> Result<(), Fail> {
    let ended = run_with(&rt, rt.alloc(), 0, 0)?;
    assert_eq!(rt; status_and_length(&ended), (0, transcript().len()));
    Ok(())
}

#[test]
fn reads_and_writes_that_fail_are_told(rt: HostRuntime) -> Result<(), Fail> {
    for (read, write, status, length) in [
        (1, 0, 5, 0),
        (2, 0, 5, 0),
        (0, 1, 6, 0),
        (0, 2, 6, 83),
        (3, 3, 0, 123),
    ] {
        let ended = run_with(&rt, rt.alloc(), read, write)?;
        assert_eq!(rt;
            status_and_length(&ended),
            (status, length),
            "{read} {write}"
        );
    }
    Ok(())
}

#[test]
fn a_script_in_memory_is_run(rt: HostRuntime) -> Result<(), Fail> {
    let words = words(rt.alloc())?;
    let mut source = NoFaultSource::new(script().to_vec(rt.alloc())?);
    let mut sink = NoFaultSink::new();
    let exit = exit_without_faults(&rt, rt.alloc(), &words, &mut source, &mut sink);
    assert!(rt; exit.status() == 0);
    Ok(())
}
