//! Small logs, and what is imported and printed of them.

use clock_import::{ImportStop, import, put_import};
use kr_order::Command;
use std::alloc::Global;
use std::process::Abort;
use std::test::Fail;

// What is printed of the log, or the number of the line that stopped it.
fn printed(alloc: Global, log: &[u8]) -> Result<Vec<u8>, ImportStop> {
    let imported = import(alloc, log)?;
    let mut out = Vec::new(alloc);
    put_import(&mut out, &imported)?;
    Ok(out)
}

#[test]
fn a_log_is_printed_event_by_event(rt: HostRuntime) -> Result<(), Fail> {
    let log = b"processes 2\nsend 1 1\nlocal 1\nreceive 2 1\nlocal 2\n";
    let text =
        b"event 1 p1 clock 1,0\nevent 2 p1 clock 2,0\nevent 3 p2 clock 1,1\nevent 4 p2 clock 1,2\n\
pairs 3\n1!2\n1!3\n3!4\nend\n";
    let out = printed(rt.alloc(), log)?;
    assert_eq!(rt; out.as_slice(), text.as_slice());
    Ok(())
}

// Whether this stops the import.
fn stops(rt: &impl Abort, alloc: Global, log: &[u8], stop: ImportStop) {
    assert!(rt; printed(alloc, log).err() == Some(stop));
}

#[test]
fn the_first_line_that_cannot_stand_is_named(rt: HostRuntime) {
    let alloc = rt.alloc();
    stops(&rt, alloc, b"", ImportStop::BadLine(1));
    stops(&rt, alloc, b"processes 65\n", ImportStop::BadLine(1));
    stops(
        &rt,
        alloc,
        b"processes 1\nreceive 1 1\n",
        ImportStop::BadLine(2),
    );
    stops(
        &rt,
        alloc,
        b"processes 1\nsend 1 1\nsend 1 1\n",
        ImportStop::BadLine(3),
    );
    stops(
        &rt,
        alloc,
        b"processes 1\nreceive 1 1\nlocal 2\nsend 1 1\n",
        ImportStop::BadLine(3),
    );
    stops(
        &rt,
        alloc,
        b"processes 1\nlocal 1\nlocal 1",
        ImportStop::BadLine(3),
    );
    stops(
        &rt,
        alloc,
        b"processes 2\nreceive 1 1\nsend 1 2\nreceive 2 2\nsend 2 1\n",
        ImportStop::Cyclic { line: 5 },
    );
}

#[test]
fn a_log_gives_creates_and_then_its_pairs(rt: HostRuntime) -> Result<(), Fail> {
    let alloc = rt.alloc();
    let imported = import(
        alloc,
        b"processes 2\nsend 1 1\nlocal 1\nreceive 2 1\nlocal 2\n",
    )?;
    let commands = imported.commands(alloc)?;
    let assigns = commands
        .as_slice()
        .iter()
        .filter(|command| matches!(command, Command::Assign(_)));
    assert_eq!(rt; (commands.len(), assigns.count()), (7, 3));
    Ok(())
}
