//! Small inputs of a chain, and what is printed of them.

use kr_text::{FailingSink, NoFaultSource, OpenGate};
use live_driver::{Exit, kronos_live};
use std::rc::RcStr;
use std::test::Fail;

#[test]
fn both_ends_of_a_chain_tell_of_one_order(rt: HostRuntime) -> Result<(), Fail> {
    for (input, exit, text) in [
        (
            "chain\ncreate 1\ncreate 1\nassign 1 1!2\nquery 1 3 1,2\nquery 3 3 2,1\n",
            Exit::Done,
            "node 1\nseen 3 before\nnode 2\nnode 3\nseen 3 after\nhistory 3\n1 c1 1 create = created 1\n2 c1 2 create = created 2\n3 c1 3 assign 1!2 = assigned kept\nend\n",
        ),
        (
            "chain\ncreate 1\nquery 2 2 1,1\n",
            Exit::BadLine(3),
            "bad line 3\n",
        ),
        (
            "chain\n",
            Exit::Done,
            "node 1\nnode 2\nnode 3\nhistory 0\nend\n",
        ),
    ] {
        let mut words = Vec::new(rt.alloc());
        words.push(RcStr::from_str(rt.alloc(), "chain")?)?;
        let mut source = NoFaultSource::new(input.as_bytes().to_vec(rt.alloc())?);
        let mut sink = FailingSink::new(rt.alloc(), 512, Vec::new(rt.alloc()))?;
        let end = kronos_live(&rt, rt.alloc(), &words, &mut source, &mut sink, &OpenGate);
        assert_eq!(rt;
            (end, str::from_utf8(sink.bytes()).unwrap_or("")),
            (exit, text),
            "{input}"
        );
    }
    Ok(())
}
