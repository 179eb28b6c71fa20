//! One call of a client, and what it is told.

ghost use Rattle.std.specs.Prelude.{◌≡◌, ◌<◌, ◌≤◌, ◌+◌, IfOk};
ghost use Rattle.live_service.specs.Calls.{Answers, Tells};

use crate::{Pass, QueryStop, Service};
use kr_order::{Asked, Copied, Listed, NoMemory, Placed, Told};
use kr_text::{Gate, Point};
use replica_lock::MOST_GIVES;
use script_lang::LiveCall;
use std::alloc::Global;
use std::sync::Wait;
use std::thread;

/// What a client is told of one call.
#[derive(Debug, Drop)]
pub enum LiveAnswer {
    /// The place of its command, and its reply.
    Placed(Placed),
    /// What its query is told.
    Told(Told),
}

/// What one client is told, in the order of its calls.
pub type CallAnswers = Listed<LiveAnswer>;

// Asks, and once more as long as no copy can be entered.
fn ask<R: Wait>(rt: &R, service: &Service, pass: &mut Pass, pairs: &Asked) -> Result<Told, NoMemory>
    ensures ok { IfOk result (λ told. Tells pass.old pass.new pairs.now told) }
    ensures client { pass.new.client ≡ pass.old.client }
    ensures made { pass.new.made ≡ pass.old.made }
    ensures service { pass.new.service ≡ pass.old.service }
{
    for _ in rt.forever() {
        match service.query(pass, pairs) {
            Ok(told) => return Ok(told),
            Err(QueryStop::NoMemory) => return Err(NoMemory),
            Err(QueryStop::Shut) => thread::yield_now(),
        }
    }
    unreachable!()
}

// Makes the call, which has this number among those of the client, by way of the gate.
pub(crate) fn answer<R: Wait, G: Gate>(
    rt: &R,
    alloc: Global,
    service: &Service,
    gate: &G,
    pass: &mut Pass,
    number: u32,
    call: &LiveCall,
) -> Result<LiveAnswer, NoMemory>
    requires service { pass.old.service ≡ service.now.id }
    requires few { pass.old.made < MOST_GIVES }
    ensures ok { IfOk result (λ answer. Answers pass.old pass.new call.now answer) }
    ensures client { pass.new.client ≡ pass.old.client }
    ensures made { pass.new.made ≤ pass.old.made + 1 }
    ensures service { pass.new.service ≡ pass.old.service }
{
    match call {
        LiveCall::Command(command) => {
            let command = command.copy(alloc)?;
            let placed = service.command_at(rt, pass, number, command, gate)?;
            Ok(LiveAnswer::Placed(placed))
        }
        LiveCall::Query(pairs) => {
            gate.at(pass.client(), number, Point::Before);
            let told = ask(rt, service, pass, pairs)?;
            gate.at(pass.client(), number, Point::After);
            Ok(LiveAnswer::Told(told))
        }
    }
}
