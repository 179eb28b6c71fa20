//! Two passes of one service: one that finds the turn taken, and one that meets the other.

ghost use Rattle.std.specs.Prelude.{◌≡◌, ◌≤◌, ◌∷◌, [], vec_capacity};

use super::gates::OneDoor;
use kr_order::{Answer, Asked, ClientId, Command, DoneList, EventId, NoMemory, PushStop};
use kr_text::{Gate, OpenGate, Point};
use live_service::{Pass, QueryStop, Service, TryStop};
use std::alloc::Global;
use std::process::Abort;
use std::sync::Wait;
use std::test::Fail;
use std::thread::{Threads, join_mut};

// Keeps a call while it has the turn, until the door behind it is opened.
#[derive(Drop)]
struct Taken {
    has_turn: OneDoor,
    goes_on: OneDoor,
}

impl Gate for Taken {
    fn at(&self, _client: ClientId, _call: u32, point: Point) {
        if point == Point::Holding {
            self.has_turn.open();
            self.goes_on.wait();
        }
    }
}

impl Taken {
    fn new() -> Taken {
        Taken {
            has_turn: OneDoor::new(),
            goes_on: OneDoor::new(),
        }
    }

    // Whether nobody waited for all turns.
    fn was_in_time(&self) -> bool {
        self.has_turn.was_in_time() && self.goes_on.was_in_time()
    }
}

// The pair of these events.
fn pair_of(alloc: Global, first: u64, second: u64) -> Result<Asked, PushStop> {
    let mut pairs = Asked::new(alloc);
    pairs.push((EventId(first), EventId(second)))?;
    Ok(pairs)
}

// Asks, and tries a command, once the other call has the turn, and lets that one go on. Whether the query was told of no
// entry, and the command came back.
fn try_beside<R: Wait>(
    rt: &R,
    service: &Service,
    pass: &mut Pass,
    pairs: &Asked,
    gate: &Taken,
) -> Result<bool, QueryStop>
    requires pass { (pass.old.service ≡ service.now.id) × (pass.old.made ≡ 0) }
    ensures pass { (pass.new.service ≡ pass.old.service) × (pass.new.client ≡ pass.old.client) }
    ensures made { pass.new.made ≤ 1 }
{
    gate.has_turn.wait();
    let told = service.query(pass, pairs);
    let tried = service.try_command(rt, pass, Command::Create);
    gate.goes_on.open();
    let is_busy = matches!(tried, Err(TryStop::Busy(Command::Create)));
    Ok(told?.entry == 0 && is_busy)
}

// The first pass's command has the turn while the other asks and tries a command. Whether it was placed, and the other found
// the turn taken.
fn find_taken<R: Threads + Wait + Sync>(
    rt: &R,
    service: &Service,
    first: &mut Pass,
    other: &mut Pass,
    pairs: &Asked,
    gate: &Taken,
) -> Result<bool, QueryStop>
    requires first { (first.old.service ≡ service.now.id) × (first.old.made ≡ 0) }
    requires other { (other.old.service ≡ service.now.id) × (other.old.made ≡ 0) }
    ensures first { (first.new.service ≡ first.old.service) × (first.new.client ≡ first.old.client) }
    ensures other { (other.new.service ≡ other.old.service) × (other.new.client ≡ other.old.client) }
    ensures made { other.new.made ≤ 1 }
{
    let (placed, is_taken) = join_mut(
        rt,
        &mut || service.command_at(rt, first, 1, Command::Create, gate),
        &mut || try_beside(rt, service, other, pairs, gate),
    );
    let Ok(placed) = placed else {
        return Err(QueryStop::NoMemory);
    };
    Ok(is_taken? && placed.place == 1)
}

// The other's command is tried while the first has the turn, and once more after it met the first.
fn try_twice<R: Threads + Wait + Abort + Sync>(
    rt: &R,
    alloc: Global,
    service: &Service,
    first: &mut Pass,
    other: &mut Pass,
) -> Result<(), Fail>
    requires first { (first.old.service ≡ service.now.id) × (first.old.made ≡ 0) }
    requires other { (other.old.service ≡ service.now.id) × (other.old.made ≡ 0) }
    ensures first { (first.new.service ≡ first.old.service) × (first.new.client ≡ first.old.client) }
    ensures other { (other.new.service ≡ other.old.service) × (other.new.client ≡ other.old.client) }
{
    let gate = Taken::new();
    let pair = pair_of(alloc, 1, 1)?;
    assert!(rt; find_taken(rt, service, first, other, &pair, &gate)?);
    assert!(rt; gate.was_in_time());
    assert_eq!(rt; (other.made(), other.seen()), (0, 0));
    service.meet(other, first);
    assert_eq!(rt; other.seen(), 1);
    let placed = service.try_command(rt, other, Command::Create)?;
    assert_eq!(rt; (placed.place, other.made(), other.seen()), (2, 1, 2));
    Ok(())
}

// The first makes an event. The other meets it, and asks.
fn meet_and_ask<R: Wait + Abort>(
    rt: &R,
    alloc: Global,
    service: &Service,
    first: &mut Pass,
    other: &mut Pass,
) -> Result<(), Fail>
    requires first { (first.old.service ≡ service.now.id) × (first.old.made ≡ 0) }
    requires other { other.old.service ≡ service.now.id }
    ensures first { (first.new.service ≡ first.old.service) × (first.new.client ≡ first.old.client) }
    ensures other { (other.new.service ≡ other.old.service) × (other.new.client ≡ other.old.client) }
{
    let pair = pair_of(alloc, 1, 1)?;
    let placed = service.command(rt, first, Command::Create)?;
    assert_eq!(rt; (placed.place, first.made(), other.seen()), (1, 1, 0));
    service.meet(other, first);
    assert_eq!(rt; other.seen(), 1);
    let told = service.query(other, &pair)?;
    assert_eq!(rt;
        (told.entry, told.answers.as_slice()),
        (1, [Answer::Same].as_slice())
    );
    Ok(())
}

// Closes the service with its two passes, in the room for them.
fn close_both<R: Wait>(
    rt: &R,
    service: Service,
    mut all: Vec<Pass>,
    first: Pass,
    other: Pass,
) -> DoneList
    requires empty { all.items ≡ [] }
    requires room { 2 ≤ vec_capacity all }
    requires many { service.passes ≡ 2 }
    requires first { (first.service ≡ service.id) × (first.client.0 ≡ 1) }
    requires other { (other.service ≡ service.id) × (other.client.0 ≡ 2) }
{
    all.push_reserved(first);
    all.push_reserved(other);
    service.close(rt, all)
}

#[test]
fn a_command_that_is_tried_finds_the_turn_taken(rt: HostRuntime) -> Result<(), Fail> {
    let all = Vec::with_capacity(rt.alloc(), 2)?;
    let (service, mut passes) = Service::new(&rt, rt.alloc(), 2)?;
    let mut first = passes.take().unwrap();
    let mut other = passes.take().unwrap();
    let steps = try_twice(&rt, rt.alloc(), &service, &mut first, &mut other);
    let journal = close_both(&rt, service, all, first, other);
    steps?;
    assert_eq!(rt; journal.len(), 2);
    Ok(())
}

#[test]
fn who_meets_a_pass_sees_its_commands(rt: HostRuntime) -> Result<(), Fail> {
    let all = Vec::with_capacity(rt.alloc(), 2)?;
    let (service, mut passes) = Service::new(&rt, rt.alloc(), 2)?;
    let mut first = passes.take().unwrap();
    let mut other = passes.take().unwrap();
    let steps = meet_and_ask(&rt, rt.alloc(), &service, &mut first, &mut other);
    let journal = close_both(&rt, service, all, first, other);
    steps?;
    assert_eq!(rt; journal.len(), 1);
    Ok(())
}

#[test]
fn a_service_ends_without_its_journal(rt: HostRuntime) -> Result<(), Fail> {
    let mut all = Vec::with_capacity(rt.alloc(), 1)?;
    let (service, mut passes) = Service::new(&rt, rt.alloc(), 1)?;
    let mut pass = passes.take().unwrap();
    let placed = service.command_at(&rt, &mut pass, 1, Command::Create, &OpenGate);
    all.push_reserved(pass);
    service.end(&rt, all);
    assert_eq!(&rt; placed?.place, 1);
    Ok(())
}
