//! Which lines of the input of a chain are taken, which is the first bad one, and what they give.

use kr_order::Command;
use script_lang::*;
use std::test::Fail;

#[test]
fn the_input_of_a_chain_is_read_up_to_its_first_bad_line(rt: HostRuntime) -> Result<(), Fail> {
    for (text, bad_line) in [
        ("", Some(1)),
        ("chain", Some(1)),
        ("chain 3\n", Some(1)),
        ("live 1\n", Some(1)),
        ("chain\n", None),
        (
            "chain\ncreate 1\nassign 16 1!1 1?2\nacquire 2 1\nquery 3 3 1,2\nrelease 1 1\n",
            None,
        ),
        ("chain\nquery 1 0 1,1\n", None),
        ("chain\ncreate 1\nquery 2 2 1,1\n", Some(3)),
        ("chain\ncreate 1\nquery 4 1 1,1\n", Some(3)),
        ("chain\ncreate 1\nquery 0 1 1,1\n", Some(3)),
        ("chain\ncreate 1\nquery 1 01 1,1\n", Some(3)),
        ("chain\ncreate 1\nquery 1 1\n", Some(3)),
        ("chain\ncreate 1\nquery 1 1,1\n", Some(3)),
        ("chain\ncreate 17\n", Some(2)),
        ("chain\ncreate 1\nchain\n", Some(3)),
        ("chain\ncreate 1\ncreate 2", Some(3)),
    ] {
        let stop = read_chain(rt.alloc(), text.as_bytes()).err();
        assert_eq!(rt; stop, bad_line.map(ScriptStop::BadLine), "at {text}");
    }
    Ok(())
}

#[test]
fn commands_of_a_chain_are_numbered_for_each_client(rt: HostRuntime) -> Result<(), Fail> {
    let text = "chain\ncreate 2\nquery 3 1 1,2 2,1\ncreate 5\nrelease 2 1\n";
    let plan = read_chain(rt.alloc(), text.as_bytes())?;
    assert_eq!(rt; (plan.entries.len(), plan.queries.len()), (3, 1));
    let Some(last) = plan.entries.get(2) else {
        return Err("there are three entries".into());
    };
    assert_eq!(rt; (last.client.0, last.seq), (2, 2));
    let Command::Release(event) = &last.command else {
        return Err("the last entry is a release".into());
    };
    assert_eq!(rt; event.0, 1);
    let Some(query) = plan.queries.get(0) else {
        return Err("there is a query".into());
    };
    assert_eq!(rt; (query.node, query.least, query.pairs.len()), (3, 1, 2));
    Ok(())
}
