//! The copies of the order that the nodes apply entries to.

ghost use Rattle.std.specs.Prelude.{◌≡◌, IfOk};
ghost use Rattle.live_chain.specs.Nodes.{AreFresh};

use kr_order::NoMemory;
use order_board::{BoardReader, BoardWriter, two_copies};
use std::alloc::Global;
use std::sync::Wait;

// Two copies of the order: their writer, and one reader.
pub struct Copies {
    pub writer: BoardWriter,
    pub reader: BoardReader,
}

impl Copies {
    // Two copies of the empty order.
    fn new<R: Wait>(rt: &R, alloc: Global) -> Result<Copies, NoMemory>
        ensures { IfOk result AreFresh }
    {
        let (writer, mut readers) = two_copies(rt, alloc, 1)?;
        let reader = readers.take().unwrap();
        Ok(Copies { writer, reader })
    }

    // Ends the copies.
    fn end<R: Wait>(self, rt: &R) {
        let Copies { writer, reader: _ } = self;
        writer.end(rt);
    }
}

// The copies of the head, the middle and the tail.
pub(crate) fn three_copies<R: Wait>(
    rt: &R,
    alloc: Global,
) -> Result<(Copies, Copies, Copies), NoMemory>
    ensures { IfOk result (λ all. AreFresh all.0 × AreFresh all.1 × AreFresh all.2) }
{
    let head = Copies::new(rt, alloc)?;
    let middle = match Copies::new(rt, alloc) {
        Ok(middle) => middle,
        Err(NoMemory) => {
            head.end(rt);
            return Err(NoMemory);
        }
    };
    match Copies::new(rt, alloc) {
        Ok(tail) => Ok((head, middle, tail)),
        Err(NoMemory) => {
            head.end(rt);
            middle.end(rt);
            Err(NoMemory)
        }
    }
}
