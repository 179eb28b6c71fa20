//! The vector clocks of events.

ghost use Rattle.std.specs.Prelude.{◌≡◌, [], map, length, IfOk};
ghost use Rattle.std.specs.List.{range_with_len};
ghost use Rattle.clock_import.specs.Log.{IsLog};
ghost use Rattle.clock_import.specs.Links.{AreLinks};
ghost use Rattle.clock_import.specs.Walk.{IsOrder};
ghost use Rattle.clock_import.specs.Clocks.{clocks_of_log};
ghost use Rattle.clock_import.specs.Joins.{joined_at, join_at, clock_of_event, part_in, part_of};

use crate::links::Link;
use crate::log::LogLine;
use crate::{Clock, Clocked, Clockeds};
use kr_order::NoMemory;
use std::alloc::Global;

// The events with their clocks, in the order of the lines. Each clock is made of those of the events that lead to its
// event, which stand before it in the order.
pub(crate) fn clocks_of(
    alloc: Global,
    processes: u32,
    lines: &[LogLine],
    links: &[Link],
    order: &[usize],
) -> Result<Clockeds, NoMemory>
    requires log { IsLog processes lines.now }
    requires links { AreLinks lines.now links.now }
    requires order { IsOrder links.now (length lines.now) order.now }
    ensures { IfOk result (λ events. events ≡ clocks_of_log processes lines.now) }
{
    let mut events = without_clocks(alloc, lines)?;
    for e in order {
        let link = &links[*e];
        let process = lines[*e].process;
        let clock = joined(alloc, processes, process, link, events.as_slice())?;
        events[*e].clock = clock;
    }
    Ok(Clockeds::from_vec(events))
}

// The events, with empty clocks.
fn without_clocks(alloc: Global, lines: &[LogLine]) -> Result<Vec<Clocked>, NoMemory>
    ensures { IfOk result (λ events. events.items ≡ map (λ entry. record { process = entry.process; clock = [] }) lines.now) }
{
    let mut events = Vec::with_capacity(alloc, lines.len())?;
    for entry in lines {
        events.push(Clocked {
            process: entry.process,
            clock: Clock::new(alloc),
        })?;
    }
    Ok(events)
}

// The clock of an event of the process with this link: the greatest numbers of those of the events that lead to it,
// and of its own number among the events of its process.
fn joined(
    alloc: Global,
    processes: u32,
    process: u32,
    link: &Link,
    events: &[Clocked],
) -> Result<Clock, NoMemory>
    ensures { IfOk result (λ clock. clock
        ≡ map (joined_at process link.now events.now) (range_with_len 1 processes)) }
{
    let prior = clock_of_event(events, link.prior);
    let source = clock_of_event(events, link.source);
    let mut clock = Vec::with_capacity(alloc, processes as usize)?;
    for i in 0..processes {
        clock.push(join_at(process, link.number, prior, source, i + 1))?;
    }
    Ok(Clock::from_vec(clock))
}

// The clock of the event; none where there is no event.
fn clock_of_event(events: &[Clocked], event: Option<usize>) -> &[u16]
    ensures { result.now ≡ clock_of_event events.now event }
{
    match event {
        Some(e) => match events.get(e) {
            Some(clocked) => clocked.clock.as_slice(),
            None => &[],
        },
        None => &[],
    }
}

// The number for the process p in the clock of an event of the process with this number among its events, where these
// are the clocks of the events that lead to it.
fn join_at(process: u32, number: u16, prior: &[u16], source: &[u16], p: u32) -> u16
    ensures { result ≡ join_at process number prior.now source.now p }
{
    let most = part_in(prior, p).max(part_in(source, p));
    if p == process { most.max(number) } else { most }
}

// The number of the process in the clock.
fn part_in(clock: &[u16], process: u32) -> u16
    ensures { result ≡ part_in clock.now process }
{
    match clock.get((process as usize).saturating_sub(1)) {
        Some(part) => *part,
        None => 0,
    }
}

// The number of the process in the clock of the event, if there is one.
pub(crate) fn part_of(events: &[Clocked], event: Option<usize>, process: u32) -> u16
    ensures { result ≡ part_of events.now event process }
{
    part_in(clock_of_event(events, event), process)
}
