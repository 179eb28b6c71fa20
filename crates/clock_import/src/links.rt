//! What each event stands directly behind.

ghost use Rattle.std.specs.Prelude.{◌≡◌, ℕ, ◌≤◌, List, length, All, IfOk};
ghost use Rattle.clock_import.specs.declared.log.LogLine.{LogLine};
ghost use Rattle.clock_import.specs.Log.{IsLine};
ghost use Rattle.clock_import.specs.Messages.{TellsFirsts};
ghost use Rattle.clock_import.specs.Links.{AreLinks, source_of};

use crate::log::{Act, LogLine};
use crate::messages::{Messages, sender};
use kr_order::NoMemory;
use std::alloc::Global;

// Which events lead directly to an event, as indexes from 0: the one before it of its process, and where it receives
// a message, the one that sends it; and its number among the events of its process, from 1.
#[derive(Clone, Copy, Debug, PartialEq, Eq)]
pub(crate) struct Link {
    pub(crate) prior: Option<usize>,
    pub(crate) source: Option<usize>,
    pub(crate) number: u16,
}

// What was seen of a process: its last event, and how many it had.
#[derive(Clone, Copy, Debug, PartialEq, Eq)]
pub(crate) struct Seen {
    last: Option<usize>,
    count: u16,
}

// The links of the events.
pub(crate) fn links_of(
    alloc: Global,
    processes: u32,
    lines: &[LogLine],
    messages: &Messages,
) -> Result<Vec<Link>, NoMemory>
    requires each { All (IsLine processes) lines.now }
    requires few { length lines.now ≤ 20000 }
    requires messages { TellsFirsts lines.now messages.now }
    ensures { IfOk result (λ links. AreLinks lines.now links.items) }
{
    let none = Seen {
        last: None,
        count: 0,
    };
    let mut seen = vec![in alloc; none; processes as usize + 1]?;
    let mut links = Vec::with_capacity(alloc, lines.len())?;
    for (i, entry) in lines.iter().enumerate() {
        let process = entry.process as usize;
        let of_process = seen[process];
        let number = of_process.count + 1;
        links.push(Link {
            prior: of_process.last,
            source: source_of(messages, entry.act),
            number,
        })?;
        seen[process] = Seen {
            last: Some(i),
            count: number,
        };
    }
    Ok(links)
}

// The event that sends what the act receives.
fn source_of(messages: &Messages, act: Act) -> Option<usize>
    ensures { (lines : List LogLine) → TellsFirsts lines messages.now → result ≡ source_of lines act }
{
    match act {
        Act::Receive(message) => sender(messages, message),
        Act::Local | Act::Send(_) | Act::Bad => None,
    }
}
