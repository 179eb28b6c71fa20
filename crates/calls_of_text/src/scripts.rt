//! Each call that may want memory, where memory suffices. Which lines are taken, and how entries, replies and answers are
//! printed, is shown by the runs in rows/ and by tools/check.

use kr_order::{Answer, ClientId, Command, Copied, DoneEntry, Entry, EventId, NoMemory, Reply};
use script_lang::*;
use std::alloc::Global;
use std::test::Fail;

// A run in which a window and a reply are lost.
const LOST_ON_THE_WAY: &[u8] = b"\
cluster 2 1
create 1
deliver 1
lose 2
deliver 2
tick 1
deliver 3
lose 4
retry 1 2
deliver 6
deliver 7
";

// The text of it, at which no test has to look.
fn text() -> &'static [u8] {
    LOST_ON_THE_WAY
}

// The text, read and printed again.
fn printed_again(alloc: Global, text: &[u8]) -> Result<Vec<u8>, ScriptStop> {
    let script = read_script(alloc, text)?;
    let mut printed = print_first(alloc, script.servers, script.clients)?;
    for event in script.events.as_slice() {
        let copy = event.copy(alloc)?;
        let Ok(()) = printed.extend_from_slice(&print_line(alloc, &copy)?) else {
            return Err(ScriptStop::NoMemory);
        };
    }
    Ok(printed)
}

// An entry, a create, with its reply.
fn done() -> DoneEntry {
    DoneEntry {
        place: 2,
        entry: Entry {
            client: ClientId(16),
            seq: 1,
            command: Command::Create,
        },
        reply: Reply::Created(EventId(7)),
    }
}

// How many bytes the entry, the reply and an answer are.
fn lengths(alloc: Global) -> Result<(usize, usize, usize), NoMemory> {
    let (mut entry, mut reply, mut answer) = (Vec::new(alloc), Vec::new(alloc), Vec::new(alloc));
    put_done(&mut entry, &done())?;
    put_reply_text(&mut reply, &Reply::Count(2))?;
    put_answer_text(&mut answer, &Answer::Before)?;
    Ok((entry.len(), reply.len(), answer.len()))
}

#[test]
fn what_was_read_is_printed_as_it_was(rt: HostRuntime) -> Result<(), Fail> {
    let printed = printed_again(rt.alloc(), text())?;
    assert!(rt; printed.as_slice() == text());
    Ok(())
}

#[test]
fn entries_replies_and_answers_are_printed(rt: HostRuntime) -> Result<(), Fail> {
    // `2 c16 1 create = created 7` with its end, `count 2` and `before`
    assert_eq!(rt; lengths(rt.alloc())?, (27, 7, 6));
    Ok(())
}
