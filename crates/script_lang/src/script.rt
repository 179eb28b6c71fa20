//! Events and scripts.

use kr_order::{Asked, ClientId, Command, Copied, Listed, NoMemory, ServerId};
use std::alloc::Global;

/// One step of a run, as one line of a script has it.
#[derive(Debug, Drop)]
pub enum Event {
    /// `create c`, `acquire c e`, `release c e`, or `assign c P P ..` with a word `a!b` for each must and `a?b`
    /// for each prefer: the client begins the command.
    Call {
        client: ClientId,
        command: Command,
    },
    /// `query c s Q Q ..` with a word `a,b` for each pair: the client asks the server about the pairs.
    Query {
        client: ClientId,
        server: ServerId,
        pairs: Asked,
    },
    /// `retry c s`: the client sends its open call to the server again.
    Retry {
        client: ClientId,
        server: ServerId,
    },
    /// `deliver k`: the addressee of packet k takes it.
    Deliver(u64),
    /// `lose k`: packet k is delivered no more.
    Lose(u64),
    /// `tick s`: the server tells the others again how far it is; `tick 0`, where it is `None`: the manager tells the
    /// servers again of its current view.
    Tick(Option<ServerId>),
    /// `work s w`: the server answers the queries that wait there, by so many workers.
    Work {
        server: ServerId,
        workers: u32,
    },
    /// `stop s`: the server stops, for good.
    Stop(ServerId),
    /// `notice s`: the manager hears that the server has stopped, and makes the next view, without it.
    Notice(ServerId),
    /// `show s`: what the server holds is printed.
    Show(ServerId),
    /// `join`: a new server is to become the last member of the chain.
    Join,
    /// `round`: each client learns the manager's view, the manager and all servers tick, each open call is tried again,
    /// each packet that is on its way is delivered, and each server works.
    Round,
    /// `learn c`: the client learns the manager's current view.
    Learn(ClientId),
}

/// The events of a script, in order.
pub type ScriptEvents = Listed<Event>;

/// How many servers and clients a run begins with, 1 to 8 servers and 1 to 16 clients, and what happens in it.
#[derive(Debug, Drop)]
pub struct Script {
    pub servers: u32,
    pub clients: u32,
    pub events: ScriptEvents,
}

impl Copied for Event {
    fn copy(&self, alloc: Global) -> Result<Self, NoMemory> {
        match self {
            Event::Call { client, command } => Ok(Event::Call {
                client: *client,
                command: command.copy(alloc)?,
            }),
            Event::Query {
                client,
                server,
                pairs,
            } => Ok(Event::Query {
                client: *client,
                server: *server,
                pairs: pairs.copy()?,
            }),
            Event::Retry { client, server } => Ok(Event::Retry {
                client: *client,
                server: *server,
            }),
            Event::Deliver(k) => Ok(Event::Deliver(*k)),
            Event::Lose(k) => Ok(Event::Lose(*k)),
            Event::Tick(who) => Ok(Event::Tick(*who)),
            Event::Work { server, workers } => Ok(Event::Work {
                server: *server,
                workers: *workers,
            }),
            Event::Stop(server) => Ok(Event::Stop(*server)),
            Event::Notice(server) => Ok(Event::Notice(*server)),
            Event::Show(server) => Ok(Event::Show(*server)),
            Event::Join => Ok(Event::Join),
            Event::Round => Ok(Event::Round),
            Event::Learn(client) => Ok(Event::Learn(*client)),
        }
    }
}
