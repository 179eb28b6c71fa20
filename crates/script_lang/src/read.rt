//! The reader of scripts.

ghost use Rattle.std.specs.Prelude.{IfSome, IfNone};
ghost use Rattle.script_lang.specs.Script.{BeginsWithSize};
ghost use Rattle.script_lang.specs.Reading.{Reads, ReadsSize};

use crate::events::event_of;
use crate::line::{behind, split_line};
use crate::numbers::two_in_front;
use crate::{Event, Script, ScriptEvents};
use kr_order::NoMemory;
use std::alloc::Global;
use thiserror::Error;

// The greatest number of servers that a run may begin with.
const MOST_SERVERS: u64 = 8;

// That of clients.
const MOST_CLIENTS: u64 = 16;

/// Why bytes are not read as a script.
#[derive(Clone, Copy, Debug, PartialEq, Eq, Error)]
pub enum ScriptStop {
    /// The line of this number, from 1, is the first that is in no script.
    #[error("bad line {0}")]
    BadLine(u64),
    /// There was no memory for the events.
    #[error("out of memory")]
    NoMemory,
}

impl From<NoMemory> for ScriptStop {
    ghost use Rattle.std.specs.Prelude.{◌≡◌};
    ghost use Rattle.script_lang.specs.declared.read.ScriptStop.TheVariants.{NoMemory as StopNoMemory};

    ghost from_gives = { λ _ stop. stop ≡ StopNoMemory };

    fn from(_: NoMemory) -> Self {
        ScriptStop::NoMemory
    }
}

/// The script that the bytes spell. `BadLine` comes exactly where they spell none, with the number of the first
/// line that is not in the grammar; bytes with no line at all have their bad line at 1.
pub fn read_script(alloc: Global, bytes: &[u8]) -> Result<Script, ScriptStop>
    ensures { Reads bytes.now result }
{
    let Some((servers, clients, mut rest)) = size_line(bytes) else {
        return Err(ScriptStop::BadLine(1));
    };
    let mut events = ScriptEvents::new(alloc);
    while !rest.is_empty() {
        let line = events.len() as u64 + 2;
        let Some((text, more)) = split_line(rest) else {
            return Err(ScriptStop::BadLine(line));
        };
        let Some(event) = event_of(alloc, text)? else {
            return Err(ScriptStop::BadLine(line));
        };
        events.push(event)?;
        rest = more;
    }
    Ok(Script {
        servers,
        clients,
        events,
    })
}

// The numbers of servers and clients in the first line, and what follows it.
fn size_line(bytes: &[u8]) -> Option<(u32, u32, &[u8])>
    ensures some { IfSome result (λ read. ReadsSize bytes.now read.0 read.1 read.2.now) }
    ensures none { IfNone result (BeginsWithSize bytes.now → ⊥) }
{
    let numbers = behind(bytes, b"cluster ")?;
    let (servers, sign, clients, end) = two_in_front(numbers, MOST_SERVERS, MOST_CLIENTS)?;
    if sign != b' ' {
        return None;
    }
    let rest = behind(end, b"\n")?;
    Some((servers as u32, clients as u32, rest))
}
