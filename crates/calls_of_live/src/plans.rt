//! Runs of `live`, by one client and by two.

use super::calls::{end_of, sink_of, source_of, text_of};
use super::gates::{Keeping, OneDoor};
use kr_text::{Gate, OpenGate, Point};
use live_driver::Exit;
use std::alloc::Global;
use std::sync::Wait;
use std::test::Fail;
use std::thread::Threads;

// What is written of this input, by way of a gate.
fn run_of<R: Threads + Wait + Sync, G: Gate + Sync>(
    rt: &R,
    alloc: Global,
    input: &str,
    gate: &G,
) -> Result<String, Fail> {
    let mut source = source_of(alloc, input.as_bytes(), 0)?;
    let mut sink = sink_of(alloc, 1024, 0)?;
    let exit = end_of(rt, alloc, &mut source, &mut sink, gate)?;
    if exit != Exit::Done {
        return Err("the run is not done".into());
    }
    Ok(String::from_str(alloc, text_of(&sink))?)
}

// A gate that keeps this client's first call at this point until the other's first call has its answer.
fn keeping(kept: u32, point: Point, awaited: u32) -> Keeping {
    Keeping {
        kept,
        point,
        awaited,
        door: OneDoor::new(),
    }
}

#[test]
fn one_client_is_told_what_it_did(rt: HostRuntime) -> Result<(), Fail> {
    let input =
        "live 1\ncreate 1\ncreate 1\nassign 1 1!2\nquery 1 1,2 2,1\nrelease 1 1\nquery 1 1,2\n";
    let text = run_of(&rt, rt.alloc(), input, &OpenGate)?;
    assert_eq!(rt;
        text.as_str(),
        "client 1\nplaced 1 created 1\nplaced 2 created 2\nplaced 3 assigned kept\nseen 3 before after\n\
         placed 4 count 0\nseen 4 unknown\nhistory 4\n1 c1 1 create = created 1\n2 c1 2 create = created 2\n\
         3 c1 3 assign 1!2 = assigned kept\n4 c1 4 release 1 = count 0\nend\n"
    );
    Ok(())
}

#[test]
fn a_query_waits_for_no_query(rt: HostRuntime) -> Result<(), Fail> {
    let gate = keeping(1, Point::Before, 2);
    let text = run_of(&rt, rt.alloc(), "live 2\nquery 1 1,1\nquery 2 1,1\n", &gate)?;
    assert!(rt; gate.door.was_in_time());
    assert_eq!(rt;
        text.as_str(),
        "client 1\nseen 0 unknown\nclient 2\nseen 0 unknown\nhistory 0\nend\n"
    );
    Ok(())
}

#[test]
fn a_query_waits_for_no_command(rt: HostRuntime) -> Result<(), Fail> {
    let gate = keeping(1, Point::Holding, 2);
    let text = run_of(&rt, rt.alloc(), "live 2\ncreate 1\nquery 2 1,1\n", &gate)?;
    assert!(rt; gate.door.was_in_time());
    assert_eq!(rt;
        text.as_str(),
        "client 1\nplaced 1 created 1\nclient 2\nseen 0 unknown\nhistory 1\n1 c1 1 create = created 1\nend\n"
    );
    Ok(())
}

#[test]
fn a_query_sees_a_command_that_was_answered(rt: HostRuntime) -> Result<(), Fail> {
    let gate = keeping(2, Point::Before, 1);
    let text = run_of(&rt, rt.alloc(), "live 2\ncreate 1\nquery 2 1,1\n", &gate)?;
    assert!(rt; gate.door.was_in_time());
    assert_eq!(rt;
        text.as_str(),
        "client 1\nplaced 1 created 1\nclient 2\nseen 1 same\nhistory 1\n1 c1 1 create = created 1\nend\n"
    );
    Ok(())
}
