//! Which entries of those that are passed on go into the log.

ghost use Rattle.std.specs.Prelude.{◌≡◌, ◌++◌, length, IfOk, OnOk, OnErr};
ghost use Rattle.kr_protocol.specs.Server.{missing};

use cmd_log::Log;
use kr_order::{Entries, NoMemory};

/// Takes exactly those of the entries, the first of which has the place `first`, that are past the log's end: none
/// where a place between is missing, and none that the log has. How many it took. After `NoMemory` the log is as
/// before.
pub fn receive(log: &mut Log, first: u64, entries: &Entries) -> Result<u64, NoMemory>
    ensures ok { OnOk result (log.new ≡ log.old ++ missing log.old first entries.now) }
    ensures count { IfOk result (λ count. count ≡ length (missing log.old first entries.now)) }
    ensures err { OnErr result (log.new ≡ log.old) }
{
    let next = log.len() + 1;
    if first > next {
        return Ok(0);
    }
    let held = ((next - first) as usize).min(entries.len());
    let missing = entries.as_slice().split_at(held).1;
    log.push_all(missing)?;
    Ok(missing.len() as u64)
}
