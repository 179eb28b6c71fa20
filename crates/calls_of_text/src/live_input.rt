//! Which lines of live input are taken, and which is the first bad one.

use script_lang::*;
use std::test::Fail;

#[test]
fn live_input_is_read_up_to_its_first_bad_line(rt: HostRuntime) -> Result<(), Fail> {
    for (text, bad_line) in [
        ("", Some(1)),
        ("live 1", Some(1)),
        ("live 0\n", Some(1)),
        ("live 17\n", Some(1)),
        ("cluster 1 1\n", Some(1)),
        ("live 16\n", None),
        (
            "live 2\ncreate 1\nassign 2 1!1 1?2\nacquire 2 1\nrelease 1 1\nquery 2 1,2\n",
            None,
        ),
        ("live 2\ncreate 1\ncreate 3\n", Some(3)),
        ("live 2\ncreate 1 \n", Some(2)),
        ("live 2\nassign 1\nassign 1 1,2\n", Some(3)),
        ("live 2\nquery 1 1,2\nquery 1\n", Some(3)),
        ("live 2\nquery 1 2 1,2\n", Some(2)),
        ("live 2\ndeliver 1\n", Some(2)),
        ("live 2\nlive 2\n", Some(2)),
        ("live 2\nrelease 1 0\n", Some(2)),
        ("live 2\ncreate 1\ncreate 2", Some(3)),
    ] {
        let stop = read_live(rt.alloc(), text.as_bytes()).err();
        assert_eq!(rt; stop, bad_line.map(ScriptStop::BadLine), "at {text}");
    }
    Ok(())
}

#[test]
fn calls_stand_in_the_order_of_their_lines(rt: HostRuntime) -> Result<(), Fail> {
    let text = "live 3\ncreate 2\nquery 3 1,2 2,1\nrelease 2 7\n";
    let plan = read_live(rt.alloc(), text.as_bytes())?;
    assert_eq!(rt; (plan.clients, plan.calls.len()), (3, 3));
    let Some((client, LiveCall::Query(pairs))) = plan.calls.get(1) else {
        return Err("the second line is a query".into());
    };
    assert_eq!(rt; (client.0, pairs.len()), (3, 2));
    Ok(())
}
