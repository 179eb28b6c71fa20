//! Both ends of a ring, compared after the threads are joined.

ghost use Rattle.std.specs.Prelude.{List};
ghost use Rattle.kr_order.specs.Prefix.{IsPrefix};
ghost use Rattle.rtrb.specs.Ring.{IsPair, received, sent};
ghost use Rattle.live_chain.specs.declared.ring.Passed.{Passed};
ghost use Rattle.live_chain.specs.Rings.{LeadsTo, WasSent};

use crate::ring::Passed;
use rtrb::{Consumer, Producer};

// What came out of a ring is the beginning of what went in.
pub(crate) fn compare(ring: &mut Producer<Passed>, from: &mut Consumer<Passed>)
    requires { IsPair ring.old from.old }
    ensures { IsPrefix (received from.old) (sent ring.old) }
{
    from.slots_beside(ring);
}

// The same of the ring to the next node.
pub(crate) fn compare_next(next: &mut Option<Producer<Passed>>, from: &mut Consumer<Passed>)
    requires { LeadsTo next.old from.old }
    ensures { (items : List Passed) → WasSent items next.old → IsPrefix (received from.old) items }
{
    let Some(ring) = next else {
        return;
    };
    compare(ring, from);
}
