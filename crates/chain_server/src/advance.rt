//! Entries of the log are applied to the board, in their order.

ghost use Rattle.std.specs.Prelude.{◌≡◌, ◌+◌, ◌^◌, ◌<◌, ◌≤◌, [], ◌∷◌, ◌++◌, length, take, drop, IfOk, OnOk};
ghost use Rattle.kr_order.specs.Done.{done_of};
ghost use Rattle.kr_order.specs.Prefix.{IsPrefix};

use cmd_log::Log;
use kr_order::{DoneEntry, DoneList, NoMemory};
use order_state::Board;
use std::alloc::Global;

// The first entry that the board has not applied is applied.
fn apply_next<B: Board>(board: &mut B, log: &Log) -> Result<DoneEntry, NoMemory>
    requires prefix { IsPrefix (B.stands board.old) log.now }
    requires more { length (B.stands board.old) < length log.now }
    requires few { length (B.stands board.old) < 2 ^ 58 }
    ensures prefix { OnOk result (B.stands board.new ≡ take (length (B.stands board.old) + 1) log.now) }
    ensures done { IfOk result (λ done. done_of (B.stands board.new) ≡ done_of (B.stands board.old) ++ done ∷ []) }
{
    let place = board.count() + 1;
    let found = log.get(place)?;
    let entry = found.unwrap();
    let reply = board.apply(&entry)?;
    Ok(DoneEntry {
        place,
        entry,
        reply,
    })
}

/// The entries of the log that the board has not applied are applied up to this place, and are answered with
/// their places and replies.
pub fn apply_upto<B: Board>(
    alloc: Global,
    board: &mut B,
    log: &Log,
    upto: u64,
) -> Result<DoneList, NoMemory>
    requires prefix { IsPrefix (B.stands board.old) log.now }
    requires low { length (B.stands board.old) ≤ upto }
    requires high { upto ≤ length log.now }
    requires few { upto ≤ 2 ^ 58 }
    ensures prefix { OnOk result (B.stands board.new ≡ take upto log.now) }
    ensures done { IfOk result (λ committed. done_of (take upto log.now) ≡ done_of (B.stands board.old) ++ committed) }
{
    let mut committed = DoneList::new(alloc);
    for _place in board.count()..upto {
        committed.push(apply_next(board, log)?)?;
    }
    Ok(committed)
}
