//! The client and its calls.

mod hears;

ghost use Rattle.std.specs.Prelude.{◌≡◌, ◌^◌, ◌<◌, ℕ, true, false, None, [], is_some, IfOk, OnOk, OnErr};
ghost use Rattle.std.specs.Bool.{OnTrue};
ghost use Rattle.kr_order.specs.View.{last_member};
ghost use Rattle.kr_protocol.specs.Client.{new_client, first_of, server_or_none, remaining, is_busy, says, asked_again, learns};
ghost use Rattle.client_session.specs.Calls.{Begins, Asks, Retries};

use crate::lookups::{Looked, look_up};
use kr_order::{
    Asked, ClientId, Command, Copied, Message, NoMemory, Node, Packet, Packets, Parts, ServerId,
    ToldReply, View,
};
use order_cache::Cache;
use std::alloc::Global;
use std::marker::Model;
use thiserror::Error;

// So many pairs a client remembers at the most.
const MOST_REMEMBERED: usize = 64;

/// Why a call is not begun.
#[derive(Clone, Copy, Debug, PartialEq, Eq, Error)]
pub enum CallStop {
    /// A call is open.
    #[error("a call is open")]
    Busy,
    /// There was no memory, now or in an earlier call.
    #[error("out of memory")]
    NoMemory,
}

/// Why no call is tried again.
#[derive(Clone, Copy, Debug, PartialEq, Eq, Error)]
pub enum RetryStop {
    /// No call is open.
    #[error("no call is open")]
    NothingOpen,
    /// There was no memory, now or in an earlier call.
    #[error("out of memory")]
    NoMemory,
}

impl From<NoMemory> for CallStop {
    ghost use Rattle.std.specs.Prelude.{◌≡◌};
    ghost use Rattle.client_session.specs.declared.client.CallStop.TheVariants.{NoMemory as StopNoMemory};

    ghost from_gives = { λ _ stop. stop ≡ StopNoMemory };

    fn from(_: NoMemory) -> Self {
        CallStop::NoMemory
    }
}

impl From<NoMemory> for RetryStop {
    ghost use Rattle.std.specs.Prelude.{◌≡◌};
    ghost use Rattle.client_session.specs.declared.client.RetryStop.TheVariants.{NoMemory as StopNoMemory};

    ghost from_gives = { λ _ stop. stop ≡ StopNoMemory };

    fn from(_: NoMemory) -> Self {
        RetryStop::NoMemory
    }
}

/// What a packet, or a query, brought to the client.
#[derive(Debug, Drop)]
pub struct Heard {
    /// The reply of the client's open command, which is closed by it.
    pub told: Option<ToldReply>,
    /// What is told of pairs of a query: by a server, or by what the client remembers.
    pub parts: Parts,
    /// What is to be sent: at most one packet, which asks for the pairs that are left.
    pub packets: Packets,
}

impl Heard {
    // Nothing is told, and nothing is to be sent.
    fn nothing(alloc: Global) -> Self
        ensures told { result.told ≡ None }
        ensures parts { result.parts ≡ [] }
        ensures packets { result.packets ≡ [] }
    {
        Heard {
            told: None,
            parts: Parts::new(alloc),
            packets: Packets::new(alloc),
        }
    }
}

/// A client. Commands go to the first server of the view that it knows, and the pairs of which a server is unsure to
/// the last.
#[derive(Debug, Drop)]
pub struct Client {
    alloc: Global,
    id: ClientId,
    seq: u64,
    call: Option<Command>,
    q: u64,
    part: u8,
    asking: Option<Asked>,
    seen: u64,
    known: View,
    cache: Cache,
    failed: bool,
}

// The first of these servers; 0, which no server has, where there is none.
fn first_of(chain: &[ServerId]) -> ServerId
    ensures { result ≡ first_of chain.now }
{
    match chain {
        [server, ..] => *server,
        [] => ServerId(0),
    }
}

// The last server of the chain; 0 where there is none.
fn last_of(view: &View) -> ServerId
    ensures { result ≡ server_or_none (last_member view.now) }
{
    match view.last_member() {
        Some(server) => server,
        None => ServerId(0),
    }
}

// The pairs of an open query: none where none are left.
fn remaining(left: Asked) -> Option<Asked>
    ensures { result ≡ remaining left }
{
    if left.len() == 0 { None } else { Some(left) }
}

impl Model for Client {
    ghost use Rattle.std.specs.Prelude.{◌≡◌};
    ghost use Rattle.kr_protocol.specs.Client.{most_remembered};
    ghost use Rattle.client_session.specs.ClientStanding.{ClientStanding};

    ghost Value = { ClientStanding };

    ghost view = { λ c. record {
      client = record {
        id = c.id;
        seq = c.seq;
        call = c.call;
        q = c.q;
        part = c.part;
        asking = c.asking;
        seen = c.seen;
        known = c.known;
        cache = c.cache.items;
      };
      failed = c.failed;
    } };

    ghost invariant = { λ c. c.cache.capacity ≡ most_remembered };
}

// Whether the two chains have the same servers in one order.
fn is_same(chain: &[ServerId], other: &[ServerId]) -> bool
    ensures { OnTrue result (chain.now ≡ other.now) }
{
    chain == other
}

impl Client {
    /// A client that has begun nothing, and knows this view.
    pub fn new(alloc: Global, id: ClientId, view: View) -> Result<Client, NoMemory>
        ensures { IfOk result (λ client. client ≡ record { client = new_client view id; failed = false }) }
    {
        let cache = Cache::new(alloc, MOST_REMEMBERED)?;
        Ok(Client {
            alloc,
            id,
            seq: 0,
            call: None,
            q: 0,
            part: 1,
            asking: None,
            seen: 0,
            known: view,
            cache,
            failed: false,
        })
    }

    // The client's packet to a server.
    fn says(&self, server: ServerId, message: Message) -> Packet
        ensures { result ≡ says self.now.client server message }
    {
        Packet {
            from: Node::Client(self.id),
            to: Node::Server(server),
            message,
        }
    }

    /// Opens a call, and answers its request, which is to be sent. `Busy` comes where a call is open, and then
    /// nothing changes; after `NoMemory`, which comes only where none is open or the client had failed, it has failed.
    pub fn begin(&mut self, command: Command) -> Result<Packet, CallStop>
        requires { self.old.client.seq < 2 ^ 63 }
        ensures { Begins self.old command result self.new }
    {
        if self.failed {
            return Err(CallStop::NoMemory);
        }
        if self.is_busy() {
            return Err(CallStop::Busy);
        }
        self.failed = true;
        let sent = command.copy(self.alloc)?;
        self.seq += 1;
        self.call = Some(command);
        self.failed = false;
        let seq = self.seq;
        Ok(self.says(
            first_of(self.known.chain.as_slice()),
            Message::Request { seq, command: sent },
        ))
    }

    // What asks the server for the pairs that are open, where some are.
    fn asked_again(&self, server: ServerId) -> Result<Packets, NoMemory>
        ensures { IfOk result (λ packets. packets ≡ asked_again self.now.client server self.now.client.asking) }
    {
        let mut packets = Packets::new(self.alloc);
        let Some(pairs) = &self.asking else {
            return Ok(packets);
        };
        let pairs = pairs.copy()?;
        let (q, part) = (self.q, self.part);
        packets.push(self.says(server, Message::Ask { q, part, pairs }))?;
        Ok(packets)
    }

    /// Begins a query: what the client remembers of its pairs is told at once, and what asks the server for the others
    /// is to be sent; where none are left, the query is closed. `Busy` comes where a call is open, and then nothing
    /// changes; after `NoMemory`, which comes only where none is open or the client had failed, it has failed.
    pub fn ask(&mut self, pairs: &Asked, server: ServerId) -> Result<Heard, CallStop>
        requires { self.old.client.q < 2 ^ 63 }
        ensures { Asks self.old server pairs.now result self.new }
    {
        if self.failed {
            return Err(CallStop::NoMemory);
        }
        if self.is_busy() {
            return Err(CallStop::Busy);
        }
        self.failed = true;
        let looked = look_up(self.alloc, &mut self.cache, self.q + 1, pairs.as_slice())?;
        let Looked { parts, left } = looked;
        self.q += 1;
        self.part = 1;
        self.asking = remaining(left);
        let packets = self.asked_again(server)?;
        self.failed = false;
        Ok(Heard {
            told: None,
            parts,
            packets,
        })
    }

    /// The packet that tries the open call again, at this server and with the same number; the client stays as it
    /// is. `NothingOpen` comes exactly where no call is open; a client that has failed answers `NoMemory`.
    pub fn retry(&self, server: ServerId) -> Result<Packet, RetryStop>
        ensures { Retries self.now server result }
    {
        if self.failed {
            return Err(RetryStop::NoMemory);
        }
        let message = match (&self.call, &self.asking) {
            (Some(command), _) => Message::Request {
                seq: self.seq,
                command: command.copy(self.alloc)?,
            },
            (None, Some(pairs)) => Message::Ask {
                q: self.q,
                part: self.part,
                pairs: pairs.copy()?,
            },
            (None, None) => return Err(RetryStop::NothingOpen),
        };
        Ok(self.says(server, message))
    }

    // Whether the client knows just this view.
    fn is_known(&self, view: &View) -> bool
        ensures { OnTrue result (view.now ≡ self.now.client.known) }
    {
        self.known.number == view.number
            && self.known.joiner == view.joiner
            && is_same(self.known.chain.as_slice(), view.chain.as_slice())
    }

    /// The client knows this view from now on: commands go to its first server, and what is unsure to its last. An
    /// open call stays as it is. After `NoMemory` the client has failed.
    pub fn learn(&mut self, view: &View) -> Result<(), NoMemory>
        ensures ok { OnOk result (self.new ≡ record { client = learns self.old.client view.now; failed = false }) }
        ensures whole { OnOk result (self.old.failed ≡ false) }
        ensures err { OnErr result (self.new.failed ≡ true) }
    {
        if self.failed {
            return Err(NoMemory);
        }
        if self.is_known(view) {
            return Ok(());
        }
        self.failed = true;
        self.known = view.copy(self.alloc)?;
        self.failed = false;
        Ok(())
    }

    /// The view that the client knows.
    pub fn known(&self) -> &View
        ensures { result.now ≡ self.now.client.known }
    {
        &self.known
    }

    /// The greatest place or entry that the client was told.
    pub fn seen(&self) -> u64
        ensures { result ≡ self.now.client.seen }
    {
        self.seen
    }

    /// How many commands the client has begun.
    pub fn begun(&self) -> u64
        ensures { result ≡ self.now.client.seq }
    {
        self.seq
    }

    /// Whether a command is open.
    pub fn has_command(&self) -> bool
        ensures { result ≡ is_some self.now.client.call }
    {
        self.call.is_some()
    }

    /// Whether a call is open, a command or a query.
    pub fn is_busy(&self) -> bool
        ensures { result ≡ is_busy self.now.client }
    {
        self.call.is_some() || self.asking.is_some()
    }
}
