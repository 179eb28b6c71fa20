//! No write follows one that failed.

ghost use Rattle.std.specs.Prelude.{None};

use crate::script::{script, words};
use kr_text::{Failed, NoFaultSource, Sink};
use kronos_driver::kronos_script;
use std::alloc::Global;
use std::test::Fail;
use std::thread::Threads;

// A sink that takes at most seven bytes a write and keeps none, whose write of this number fails, from 1. It counts its
// writes.
#[derive(Drop)]
struct CountingSink {
    fails: u64,
    writes: u64,
    faults: u64,
}

impl Sink for CountingSink {
    ghost held = { λ sink. None };

    ghost faults = { λ sink. sink.faults };

    fn write(&mut self, piece: &[u8]) -> Result<usize, Failed> {
        self.writes = self.writes.saturating_add(1);
        if self.writes == self.fails {
            self.faults = self.faults.saturating_add(1);
            return Err(Failed);
        }
        Ok(piece.len().min(7))
    }
}

// The program's status where the write of this number fails, and how many writes were made.
fn status_and_writes<R: Threads + Sync>(
    rt: &R,
    alloc: Global,
    fails: u64,
) -> Result<(u8, u64), Fail> {
    let words = words(alloc)?;
    let mut source = NoFaultSource::new(script().to_vec(alloc)?);
    let mut sink = CountingSink {
        fails,
        writes: 0,
        faults: 0,
    };
    let exit = kronos_script(rt, alloc, &words, &mut source, &mut sink);
    Ok((exit.status(), sink.writes))
}

// The first 83 bytes of the transcript take twelve writes, and the other 40 six.
#[test]
fn no_write_follows_one_that_failed(rt: HostRuntime) -> Result<(), Fail> {
    for fails in [1, 2, 11, 12, 13, 17, 18] {
        let (status, writes) = status_and_writes(&rt, rt.alloc(), fails)?;
        assert_eq!(rt; (status, writes), (6, fails));
    }
    let (status, writes) = status_and_writes(&rt, rt.alloc(), 19)?;
    assert_eq!(rt; (status, writes), (0, 18));
    Ok(())
}
