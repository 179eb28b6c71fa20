//! A log is imported.

ghost use Rattle.std.specs.Prelude.{IfOk};
ghost use Rattle.clock_import.specs.Log.{IsLog};
ghost use Rattle.clock_import.specs.Messages.{TellsFirsts};
ghost use Rattle.clock_import.specs.Imported.{Imports, IsImported, Brings};

use crate::Imported;
use crate::clocks::clocks_of;
use crate::links::links_of;
use crate::order::{first_closing, order_of};
use crate::pairs::pairs_of;
use crate::read::{Log, read_log};
use kr_order::NoMemory;
use std::alloc::Global;
use thiserror::Error;

/// Why bytes are not imported.
#[derive(Clone, Copy, Debug, PartialEq, Eq, Error)]
pub enum ImportStop {
    /// The line of this number, from 1, is the first that is in no log.
    #[error("bad line {0}")]
    BadLine(u64),
    /// The bytes spell a log, and the line of this number, from 1, is the first whose pairs close a cycle with those of
    /// the lines above it.
    #[error("cyclic line {line}")]
    Cyclic { line: u64 },
    /// There was no memory for the log or for what is told of it.
    #[error("out of memory")]
    NoMemory,
}

impl From<NoMemory> for ImportStop {
    ghost use Rattle.std.specs.Prelude.{◌≡◌};
    ghost use Rattle.clock_import.specs.declared.bring.ImportStop.TheVariants.{NoMemory as StopNoMemory};

    ghost from_gives = { λ _ stop. stop ≡ StopNoMemory };

    fn from(_: NoMemory) -> Self {
        ImportStop::NoMemory
    }
}

/// The events, clocks and pairs of the log that the bytes spell. `BadLine` comes exactly where they spell none, and
/// `Cyclic` where they spell one that has a cycle; bytes with no line at all have their bad line at 1.
pub fn import(alloc: Global, bytes: &[u8]) -> Result<Imported, ImportStop>
    ensures answer { Imports bytes.now result }
    ensures told { IfOk result IsImported }
{
    let log = read_log(alloc, bytes)?;
    bring(alloc, log)
}

// What is told of the log.
fn bring(alloc: Global, log: Log) -> Result<Imported, ImportStop>
    requires log { IsLog log.processes log.lines.items }
    requires messages { TellsFirsts log.lines.items log.messages }
    ensures { Brings log.processes log.lines.items result }
{
    let Log {
        processes,
        lines,
        messages,
    } = log;
    let lines = lines.as_slice();
    let links = links_of(alloc, processes, lines, &messages)?;
    match order_of(alloc, links.as_slice(), lines.len())? {
        Some(order) => {
            let pairs = pairs_of(alloc, lines, links.as_slice(), &messages)?;
            // the clocks are made where there is room for them
            drop(messages);
            let events = clocks_of(alloc, processes, lines, links.as_slice(), order.as_slice())?;
            Ok(Imported {
                processes,
                events,
                pairs,
            })
        }
        None => {
            let event = first_closing(alloc, links.as_slice(), lines.len())?;
            Err(ImportStop::Cyclic {
                line: event as u64 + 1,
            })
        }
    }
}
