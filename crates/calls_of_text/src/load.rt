//! The counts of loads, and what is printed of them.

use load_gen::{Summary, calls, make};
use std::test::Fail;

#[test]
fn a_load_of_500_rounds_has_1589_calls(rt: HostRuntime) -> Result<(), Fail> {
    let script = make(rt.alloc(), 500)?;
    assert_eq!(rt; (script.servers, script.clients), (3, 4));
    assert_eq!(rt; calls(script.events.as_slice()), 1589);
    Ok(())
}

#[test]
fn a_summary_is_a_line_for_each_count(rt: HostRuntime) -> Result<(), Fail> {
    let summary = Summary {
        calls: 1,
        history: 2,
        packets: 30,
        born: 4,
        held: 5,
        pairs: 6,
        before: 0,
    };
    let wanted = "calls 1\nhistory 2\npackets 30\nborn 4\nheld 5\npairs 6\nbefore 0\nend\n";
    assert_eq!(rt; summary.text(rt.alloc())?.as_slice(), wanted.as_bytes());
    Ok(())
}
