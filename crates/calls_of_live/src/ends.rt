//! Each end of `live` but want of memory, and how far it reads and writes.

use super::calls::{end_of, sink_of, source_of, text_of, words_of};
use kr_text::{OpenGate, Source};
use live_driver::{Exit, kronos_live};
use std::alloc::{AllocError, Global};
use std::test::Fail;

const WRITTEN: &str = "client 1\nplaced 1 created 1\nhistory 1\n1 c1 1 create = created 1\nend\n";

// The text of a run of one event, at which no test has to look.
fn written() -> &'static str {
    WRITTEN
}

// How often an event is asked of in the longest input.
const QUERIES: usize = 87_380;

// The longest input, of 1,048,576 bytes, where the last line has 12: one event is created, and then asked of in each line.
fn longest(alloc: Global, last: &[u8]) -> Result<Vec<u8>, AllocError> {
    let mut input = b"live 1\ncreate 1\n".to_vec(alloc)?;
    for _ in 1..QUERIES {
        input.extend_from_slice(b"query 1 1,1\n")?;
    }
    input.extend_from_slice(last)?;
    Ok(input)
}

#[test]
fn words_behind_live_are_no_form(rt: HostRuntime) -> Result<(), Fail> {
    let words = words_of(rt.alloc(), &["live", "1"])?;
    let mut source = source_of(rt.alloc(), b"live 1\n", 1)?;
    let mut sink = sink_of(rt.alloc(), 256, 0)?;
    let exit = kronos_live(&rt, rt.alloc(), &words, &mut source, &mut sink, &OpenGate);
    assert_eq!(rt;
        (exit, text_of(&sink)),
        (
            Exit::Usage,
            "usage: kronos script, load N, live, audit, import, chain\n"
        )
    );
    // the first read fails, and this is the first
    assert!(rt; source.read(&mut [0]).is_err());
    Ok(())
}

#[test]
fn bad_lines_and_faults_are_told(rt: HostRuntime) -> Result<(), Fail> {
    let one = "live 1\ncreate 1\n";
    for (input, read, write, room, exit, text) in [
        (one, 0, 0, 70, Exit::Done, written()),
        ("", 0, 0, 70, Exit::BadLine(1), "bad line 1\n"),
        ("live 1\n\n", 0, 0, 70, Exit::BadLine(2), "bad line 2\n"),
        (one, 1, 0, 70, Exit::ReadFault, ""),
        (one, 2, 0, 70, Exit::ReadFault, ""),
        (one, 0, 1, 70, Exit::WriteFault, ""),
        (one, 0, 2, 9, Exit::WriteFault, "client 1\n"),
        ("", 0, 1, 70, Exit::WriteFault, ""),
        ("", 0, 2, 9, Exit::WriteFault, "bad line "),
    ] {
        let mut source = source_of(rt.alloc(), input.as_bytes(), read)?;
        let mut sink = sink_of(rt.alloc(), room, write)?;
        let end = end_of(&rt, rt.alloc(), &mut source, &mut sink, &OpenGate)?;
        assert_eq!(rt;
            (end, text_of(&sink)),
            (exit, text),
            "{input} {read} {write}"
        );
    }
    Ok(())
}

#[test]
fn the_longest_input_is_taken(rt: HostRuntime) -> Result<(), Fail> {
    for (last, exit, length) in [
        ("query 1 1,1\n", Exit::Done, 1_048_628),
        ("query 1 1,1 ", Exit::BadLine(87_382), 15),
        ("query 1 1,1\n\n", Exit::TooLong, 0),
    ] {
        let input = longest(rt.alloc(), last.as_bytes())?;
        let mut source = source_of(rt.alloc(), &input, 0)?;
        let mut sink = sink_of(rt.alloc(), 1_048_628, 0)?;
        let end = end_of(&rt, rt.alloc(), &mut source, &mut sink, &OpenGate)?;
        assert_eq!(rt; (end, sink.bytes().len()), (exit, length), "{last}");
    }
    Ok(())
}
