//! The script of a load.

ghost use Rattle.std.specs.Prelude.{◌≡◌, ℕ, ◌≤◌, ◌<◌, ◌+◌, ◌-◌, ◌^◌, ◌++◌, All, OnOk, IfOk};
ghost use Rattle.kr_order.specs.declared.ids.EventId.{EventId};
ghost use Rattle.script_lang.specs.Number.{IsFromOneTo};
ghost use Rattle.script_lang.specs.Script.{IsScript};
ghost use Rattle.kr_world.specs.Round.{IsStep};
ghost use Rattle.load_gen.specs.Made.{asks, assigns, client_of, creates, deliveries, made, must_pair, releases, sent_by, server_of};
ghost use Rattle.load_gen.specs.Made.{with_command, with_query, with_round};

use kr_order::{
    Asked, Batch, ClientId, Command, EventId, Kind, NoMemory, Pair, PushStop, ServerId,
};
use script_lang::{Event, Script, ScriptEvents};
use std::alloc::Global;
use std::marker::Model;

// A load has so many servers and clients.
const SERVERS: u32 = 3;

const CLIENTS: u32 = 4;

// So many workers answer a query.
const WORKERS: u32 = 2;

// Every so many rounds there is a query.
const ASKED_EVERY: u32 = 5;

// It asks about the event of so many rounds before.
const ASKED_BACK: u32 = 4;

// An event is released so many rounds after its own.
const RELEASED_AFTER: u32 = 10;

// A command brings so many packets, and a query so many.
const BY_COMMAND: u64 = 7;

const BY_QUERY: u64 = 2;

// The events so far, and how many packets are sent in them. Contracts see the events.
#[derive(Drop)]
struct Making {
    events: ScriptEvents,
    sent: u64,
}

impl Model for Making {
    ghost use Rattle.std.specs.Prelude.{◌≡◌, List};
    ghost use Rattle.script_lang.specs.declared.script.Event.{Event};
    ghost use Rattle.load_gen.specs.Made.{sent_by};

    ghost Value = { List Event };

    ghost view = { λ m. m.events };

    ghost invariant = { λ m. m.sent ≡ sent_by m.events };
}

// The client of a round, by turns.
fn client_of(round: u32) -> ClientId
    requires { 1 ≤ round }
    ensures { result ≡ client_of round }
{
    ClientId((round - 1) % CLIENTS + 1)
}

// The server that is asked in a round, by turns.
fn server_of(round: u32) -> ServerId
    ensures { result ≡ server_of round }
{
    ServerId(round / ASKED_EVERY % SERVERS + 1)
}

// The command that binds one event before another.
fn must_pair(alloc: Global, first: u64, second: u64) -> Result<Command, NoMemory>
    ensures { IfOk result (λ command. command ≡ must_pair first second) }
{
    let mut batch = Batch::new(alloc);
    let pushed = batch.push(Pair {
        first: EventId(first),
        second: EventId(second),
        kind: Kind::Must,
    });
    match pushed {
        Ok(()) => Ok(Command::Assign(batch)),
        Err(_) => Err(NoMemory),
    }
}

// Puts the deliveries of the next so many packets behind what is there.
fn deliver(events: &mut ScriptEvents, sent: u64, count: u64) -> Result<(), NoMemory>
    requires { sent + count < 2 ^ 64 }
    ensures { OnOk result (events.new ≡ events.old ++ deliveries sent count) }
{
    for k in 0..count {
        events.push(Event::Deliver(sent + k + 1))?;
    }
    Ok(())
}

impl Making {
    // The client's command, and all packets that it brings.
    fn command(self, client: ClientId, command: Command) -> Result<Making, NoMemory>
        requires { sent_by self < 2 ^ 32 }
        ensures made { IfOk result (λ making. making ≡ with_command self client command) }
        ensures few { IfOk result (λ making. sent_by making ≤ sent_by self + 7) }
    {
        let Making { mut events, sent } = self;
        events.push(Event::Call { client, command })?;
        deliver(&mut events, sent, BY_COMMAND)?;
        Ok(Making {
            events,
            sent: sent + BY_COMMAND,
        })
    }

    // The client's query of a server about one pair, and the packets that it brings.
    fn query(
        self,
        alloc: Global,
        client: ClientId,
        server: ServerId,
        first: EventId,
        second: EventId,
    ) -> Result<Making, NoMemory>
        requires { sent_by self < 2 ^ 32 }
        ensures made { IfOk result (λ making. making ≡ with_query self client server (first, second)) }
        ensures few { IfOk result (λ making. sent_by making ≤ sent_by self + 7) }
    {
        let Making { mut events, sent } = self;
        let mut pairs = Asked::new(alloc);
        match pairs.push((first, second)) {
            Ok(()) => {}
            Err(_) => return Err(NoMemory),
        }
        events.push(Event::Query {
            client,
            server,
            pairs,
        })?;
        events.push(Event::Deliver(sent + 1))?;
        events.push(Event::Work {
            server,
            workers: WORKERS,
        })?;
        events.push(Event::Deliver(sent + 2))?;
        Ok(Making {
            events,
            sent: sent + BY_QUERY,
        })
    }

    // The round's event is made.
    fn create(self, round: u32) -> Result<Making, NoMemory>
        requires round { 1 ≤ round }
        requires few { sent_by self < 2 ^ 32 }
        ensures made { IfOk result (λ making. making ≡ creates round self) }
        ensures few { IfOk result (λ making. sent_by making ≤ sent_by self + 7) }
    {
        self.command(client_of(round), Command::Create)
    }

    // It is bound behind the event before it, if there is one.
    fn assign(self, alloc: Global, round: u32) -> Result<Making, NoMemory>
        requires round { 1 ≤ round }
        requires few { sent_by self < 2 ^ 32 }
        ensures made { IfOk result (λ making. making ≡ assigns round self) }
        ensures few { IfOk result (λ making. sent_by making ≤ sent_by self + 7) }
    {
        if round < 2 {
            return Ok(self);
        }
        let event = u64::from(round);
        let command = must_pair(alloc, event - 1, event)?;
        self.command(client_of(round), command)
    }

    // Every few rounds it is asked about it.
    fn ask(self, alloc: Global, round: u32) -> Result<Making, NoMemory>
        requires round { 1 ≤ round }
        requires few { sent_by self < 2 ^ 32 }
        ensures made { IfOk result (λ making. making ≡ asks round self) }
        ensures few { IfOk result (λ making. sent_by making ≤ sent_by self + 7) }
    {
        if round % ASKED_EVERY != 0 {
            return Ok(self);
        }
        let first = u64::from(round - ASKED_BACK);
        let second = u64::from(round);
        self.query(
            alloc,
            client_of(round),
            server_of(round),
            EventId(first),
            EventId(second),
        )
    }

    // An event that is some rounds old is released.
    fn release(self, round: u32) -> Result<Making, NoMemory>
        requires round { 1 ≤ round }
        requires few { sent_by self < 2 ^ 32 }
        ensures made { IfOk result (λ making. making ≡ releases round self) }
        ensures few { IfOk result (λ making. sent_by making ≤ sent_by self + 7) }
    {
        if round <= RELEASED_AFTER {
            return Ok(self);
        }
        let event = EventId(u64::from(round - RELEASED_AFTER));
        self.command(client_of(round), Command::Release(event))
    }

    // A whole round.
    fn round(self, alloc: Global, round: u32) -> Result<Making, NoMemory>
        requires round { 1 ≤ round }
        requires few { sent_by self < 2 ^ 31 }
        ensures made { IfOk result (λ making. making ≡ with_round round self) }
        ensures few { IfOk result (λ making. sent_by making ≤ sent_by self + 28) }
    {
        self.create(round)?
            .assign(alloc, round)?
            .ask(alloc, round)?
            .release(round)
    }
}

/// The script of the load of so many rounds, 1 to 2,000.
pub fn make(alloc: Global, n: u32) -> Result<Script, NoMemory>
    requires { IsFromOneTo 2000 n }
    ensures made { IfOk result (λ script. script ≡ made n) }
    ensures fits { IfOk result (λ script. IsScript script) }
    ensures steps { IfOk result (λ script. All IsStep script.events) }
{
    let mut making = Making {
        events: ScriptEvents::new(alloc),
        sent: 0,
    };
    for done in 0..n {
        making = making.round(alloc, done + 1)?;
    }
    Ok(Script {
        servers: SERVERS,
        clients: CLIENTS,
        events: making.events,
    })
}
