//! One order that two threads share, each by a pass of its own.

ghost use Rattle.std.specs.Prelude.{◌≡◌, ◌<◌, ◌≤◌, ◌+◌, ◌*◌, ◌∷◌, [], length, vec_capacity, IfOk, OnOk};
ghost use Rattle.kr_order.specs.Prefix.{IsPrefix};

use kr_order::{Asked, Batch, Command, DoneList, EventId, Kind, NoMemory, Pair, Reply, Told};
use live_service::{Pass, QueryStop, Service};
use replica_lock::MOST_GIVES;
use std::alloc::Global;
use std::sync::Wait;
use std::thread::{Threads, join_mut};

/// Makes one event by this pass.
fn create<R: Wait>(rt: &R, service: &Service, pass: &mut Pass) -> Result<EventId, NoMemory>
    requires service { pass.old.service ≡ service.now.id }
    requires few { pass.old.made < MOST_GIVES }
    ensures pass { (pass.new.client ≡ pass.old.client) × (pass.new.service ≡ pass.old.service) }
    ensures made { OnOk result (pass.new.made ≡ pass.old.made + 1) }
{
    let placed = service.command(rt, pass, Command::Create)?;
    let Reply::Created(event) = placed.reply else {
        unreachable!()
    };
    Ok(event)
}

/// Makes so many events by this pass, and gives the last of them.
fn create_many<R: Wait>(
    rt: &R,
    service: &Service,
    pass: &mut Pass,
    times: u64,
) -> Result<EventId, NoMemory>
    requires service { pass.old.service ≡ service.now.id }
    requires some { 0 < times }
    requires few { pass.old.made + times ≤ MOST_GIVES }
    ensures pass { (pass.new.client ≡ pass.old.client) × (pass.new.service ≡ pass.old.service) }
    ensures made { OnOk result (pass.new.made ≡ pass.old.made + times) }
{
    for done in 1..times {
        create(rt, service, pass)?;
    }
    create(rt, service, pass)
}

// A batch of one pair: the first event has to be before the second.
fn must_be_before(alloc: Global, first: EventId, second: EventId) -> Result<Command, NoMemory> {
    let mut batch = Batch::new(alloc);
    let pair = Pair {
        first,
        kind: Kind::Must,
        second,
    };
    let Ok(()) = batch.push(pair) else {
        return Err(NoMemory);
    };
    Ok(Command::Assign(batch))
}

// A query of one pair.
fn pair_of(alloc: Global, first: EventId, second: EventId) -> Result<Asked, NoMemory>
    ensures { IfOk result (λ pairs. length pairs ≡ 1) }
{
    let mut pairs = Asked::new(alloc);
    let Ok(()) = pairs.push((first, second)) else {
        return Err(NoMemory);
    };
    Ok(pairs)
}

/// Puts the first event before the second by one pass, and asks by the other, which met it.
fn bind_and_ask<R: Wait>(
    rt: &R,
    alloc: Global,
    service: &Service,
    one: &mut Pass,
    other: &mut Pass,
    events: (EventId, EventId),
) -> Result<Told, QueryStop>
    requires one { one.old.service ≡ service.now.id }
    requires other { other.old.service ≡ service.now.id }
    requires few { one.old.made < MOST_GIVES }
    ensures one { (one.new.client ≡ one.old.client) × (one.new.service ≡ one.old.service) }
    ensures other { (other.new.client ≡ other.old.client) × (other.new.service ≡ other.old.service) }
    ensures made { OnOk result ((one.new.made ≡ one.old.made + 1) × (other.new.made ≡ other.old.made)) }
    ensures met { OnOk result (IsPrefix one.new.known other.new.known) }
    ensures entry { IfOk result (λ told. told.entry ≡ length other.new.known) }
    ensures answers { IfOk result (λ told. length told.answers ≡ 1) }
{
    let (Ok(bind), Ok(pairs)) = (
        must_be_before(alloc, events.0, events.1),
        pair_of(alloc, events.0, events.1),
    ) else {
        return Err(QueryStop::NoMemory);
    };
    service.meet(one, other);
    let Ok(_) = service.command(rt, one, bind) else {
        return Err(QueryStop::NoMemory);
    };
    service.meet(other, one);
    service.query(other, &pairs)
}

/// Two threads make so many events, each by its pass; then the last of one is put before the last of the other.
fn steps<R: Threads + Wait + Sync>(
    rt: &R,
    alloc: Global,
    service: &Service,
    one: &mut Pass,
    other: &mut Pass,
    times: u64,
) -> Result<Told, QueryStop>
    requires one { (one.old.service ≡ service.now.id) × (one.old.made ≡ 0) }
    requires other { (other.old.service ≡ service.now.id) × (other.old.made ≡ 0) }
    requires times { (0 < times) × (times < MOST_GIVES) }
    ensures one { (one.new.client ≡ one.old.client) × (one.new.service ≡ one.old.service) }
    ensures other { (other.new.client ≡ other.old.client) × (other.new.service ≡ other.old.service) }
    ensures made { OnOk result ((one.new.made ≡ times + 1) × (other.new.made ≡ times)) }
    ensures met { OnOk result (IsPrefix one.new.known other.new.known) }
    ensures entry { IfOk result (λ told. told.entry ≡ length other.new.known) }
    ensures answers { IfOk result (λ told. length told.answers ≡ 1) }
{
    let (by_one, by_other) = join_mut(
        rt,
        &mut || create_many(rt, service, one, times),
        &mut || create_many(rt, service, other, times),
    );
    let (Ok(first), Ok(second)) = (by_one, by_other) else {
        return Err(QueryStop::NoMemory);
    };
    bind_and_ask(rt, alloc, service, one, other, (first, second))
}

/// Closes the service with its two passes. The list has room for them, and what is left is the journal.
fn close_both<R: Wait>(
    rt: &R,
    service: Service,
    mut all: Vec<Pass>,
    one: Pass,
    other: Pass,
) -> DoneList
    requires empty { all.items ≡ [] }
    requires room { 2 ≤ vec_capacity all }
    requires many { service.passes ≡ 2 }
    requires one { (one.service ≡ service.id) × (one.client.0 ≡ 1) }
    requires other { (other.service ≡ service.id) × (other.client.0 ≡ 2) }
    ensures many { length result ≡ one.made + other.made }
    ensures known { length other.known ≤ length result }
{
    all.push_reserved(one);
    all.push_reserved(other);
    service.close(rt, all)
}

/// What is told of the last events of two threads that make so many each, once they are bound, and how many entries the
/// journal has in the end.
pub fn by_two_threads<R: Threads + Wait + Sync>(
    rt: &R,
    alloc: Global,
    times: u64,
) -> Result<(Told, u64), QueryStop>
    requires { (0 < times) × (times < MOST_GIVES) }
    ensures journal { IfOk result (λ both. both.1 ≡ 2 * times + 1) }
    ensures entry { IfOk result (λ both. both.0.entry ≤ both.1) }
    ensures answers { IfOk result (λ both. length both.0.answers ≡ 1) }
{
    let Ok(all) = Vec::with_capacity(alloc, 2) else {
        return Err(QueryStop::NoMemory);
    };
    let Ok((service, mut passes)) = Service::new(rt, alloc, 2) else {
        return Err(QueryStop::NoMemory);
    };
    let mut one = passes.take().unwrap();
    let mut other = passes.take().unwrap();
    let told = steps(rt, alloc, &service, &mut one, &mut other, times);
    let journal = close_both(rt, service, all, one, other);
    Ok((told?, journal.len() as u64))
}
