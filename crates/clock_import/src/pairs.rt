//! The pairs of a log.

ghost use Rattle.std.specs.Prelude.{◌≡◌, ◌+◌, ◌++◌, ◌<◌, ◌≤◌, List, length, option_map, OnOk, IfOk, IfSome};
ghost use Rattle.clock_import.specs.declared.log.LogLine.{LogLine};
ghost use Rattle.clock_import.specs.Messages.{TellsFirsts};
ghost use Rattle.clock_import.specs.Links.{AreLinks};
ghost use Rattle.clock_import.specs.Pairs.{own_pair, sent_pair, received_pair, message_pair, one_or_both, pairs_of_log, numbered, numbers};

use crate::EventPairs;
use crate::links::Link;
use crate::log::{Act, LogLine};
use crate::messages::{Messages, receiver, sender};
use kr_order::{EventId, NoMemory};
use std::alloc::Global;

// All pairs, event by event.
pub(crate) fn pairs_of(
    alloc: Global,
    lines: &[LogLine],
    links: &[Link],
    messages: &Messages,
) -> Result<EventPairs, NoMemory>
    requires few { length lines.now ≤ 20000 }
    requires messages { TellsFirsts lines.now messages.now }
    requires links { AreLinks lines.now links.now }
    ensures { IfOk result (λ pairs. numbered pairs ≡ pairs_of_log lines.now) }
{
    let mut pairs = EventPairs::new(alloc);
    for (i, link) in links.iter().enumerate() {
        let own = own_pair(i, link.prior);
        let other = message_pair(i, lines[i].act, messages);
        add_both(&mut pairs, own, other)?;
    }
    Ok(pairs)
}

// The pair of an event and the one before it of its process.
fn own_pair(i: usize, prior: Option<usize>) -> Option<(EventId, EventId)>
    requires few { i < 20000 }
    requires prior { IfSome prior (λ f. f < i) }
    ensures { option_map numbers result ≡ own_pair i prior }
{
    match prior {
        Some(f) => Some(pair_of(f, i)),
        None => None,
    }
}

// The pair of the events at these indexes.
fn pair_of(a: usize, b: usize) -> (EventId, EventId)
    requires a { a < 20000 }
    requires b { b < 20000 }
    ensures { numbers result ≡ (a + 1, b + 1) }
{
    (EventId(a as u64 + 1), EventId(b as u64 + 1))
}

// The pair of the message, at the lower of its two lines.
fn message_pair(i: usize, act: Act, messages: &Messages) -> Option<(EventId, EventId)>
    requires { i < 20000 }
    ensures { (lines : List LogLine) → TellsFirsts lines messages.now → option_map numbers result ≡ message_pair lines i act }
{
    match act {
        Act::Send(message) => match receiver(messages, message) {
            Some(r) if r < i => Some(pair_of(i, r)),
            Some(_) | None => None,
        },
        Act::Receive(message) => match sender(messages, message) {
            Some(s) if s < i => Some(pair_of(s, i)),
            Some(_) | None => None,
        },
        Act::Local | Act::Bad => None,
    }
}

// Adds the two pairs, the second where it is not the first again.
fn add_both(
    pairs: &mut EventPairs,
    own: Option<(EventId, EventId)>,
    other: Option<(EventId, EventId)>,
) -> Result<(), NoMemory>
    ensures { OnOk result (numbered pairs.new
        ≡ numbered pairs.old ++ one_or_both (option_map numbers own) (option_map numbers other)) }
{
    match (own, other) {
        (Some(pair), Some(other)) => {
            pairs.push(pair)?;
            if pair.0.0 == other.0.0 && pair.1.0 == other.1.0 {
                Ok(())
            } else {
                pairs.push(other)
            }
        }
        (Some(pair), None) | (None, Some(pair)) => pairs.push(pair),
        (None, None) => Ok(()),
    }
}
