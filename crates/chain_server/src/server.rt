//! The server, its calls, and which message is taken by which handler.

mod acks;
mod appends;
mod asks;
mod requests;
mod sends;
mod viewed;
mod views;

ghost use Rattle.std.specs.Prelude.{◌≡◌, ◌+◌, ◌≤◌, ◌^◌, [], ◌∷◌, ◌++◌, length, min, false, IfOk, OnOk, OnErr};
ghost use Rattle.kr_protocol.specs.Reaction.{ignored};
ghost use Rattle.kr_protocol.specs.Server.{founder, newcomer, view_number, acknowledged, advances};
ghost use Rattle.kr_order.specs.Held.{held_events, held_pairs};
ghost use Rattle.chain_server.specs.Calls.{Takes, Does};

use crate::Effects;
use crate::advance::apply_upto;
use crate::replies::replies_of;
use chain_link::Link;
use cmd_log::Log;
use kr_order::{Listed, Message, NoMemory, Node, Packet, Query, ServerId, View};
use order_state::Board;
use std::alloc::Global;
use std::marker::Model;
use std::thread::Threads;

/// One server of a chain.
#[derive(Drop)]
pub struct Server<B: Board> {
    alloc: Global,
    id: ServerId,
    view: Option<View>,
    log: Log,
    link: Link,
    need: u64,
    board: B,
    waiting: Listed<Query>,
    failed: bool,
}

impl<B: Board> Model for Server<B> {
    ghost use Rattle.chain_server.specs.ServerStanding.{ServerStanding, server_of};
    ghost use Rattle.chain_server.specs.Whole.{IsWhole};

    ghost Value = { ServerStanding };

    ghost view = { λ s. record { server = server_of s.id s.view s.log (B.stands s.board) s.link.fed s.need s.waiting; failed = s.failed } };

    ghost invariant = { λ s. IsWhole s.id s.view s.link.next s.failed (B.stands s.board) s.log };
}

impl<B: Board> Server<B> {
    /// A server of the first view, with nothing in its log.
    pub fn founder(alloc: Global, id: ServerId, view: View, board: B) -> Self
        requires { B.stands board ≡ [] }
        ensures { result ≡ record { server = founder view id; failed = false } }
    {
        let mut link = Link::new();
        link.aim(view.next_of(id));
        Server {
            alloc,
            id,
            view: Some(view),
            log: Log::new(alloc),
            link,
            need: 0,
            board,
            waiting: Listed::new(alloc),
            failed: false,
        }
    }

    /// A server that is to join, with nothing in its log. It has no view until the manager tells it of one.
    pub fn joiner(alloc: Global, id: ServerId, board: B) -> Self
        requires { B.stands board ≡ [] }
        ensures { result ≡ record { server = newcomer id; failed = false } }
    {
        Server {
            alloc,
            id,
            view: None,
            log: Log::new(alloc),
            link: Link::new(),
            need: 0,
            board,
            waiting: Listed::new(alloc),
            failed: false,
        }
    }

    /// The server's number.
    pub fn id(&self) -> ServerId
        ensures { result ≡ self.now.server.id }
    {
        self.id
    }

    /// The number of the view that the server has adopted, 0 where it has none.
    pub fn view_number(&self) -> u64
        ensures { result ≡ view_number self.now.server.view }
    {
        match &self.view {
            None => 0,
            Some(view) => view.number,
        }
    }

    /// How many entries the server's log has.
    pub fn len(&self) -> u64
        ensures { result ≡ length self.now.server.log }
    {
        self.log.len()
    }

    /// How many of them are acknowledged, and applied.
    pub fn done(&self) -> u64
        ensures { result ≡ self.now.server.done }
    {
        self.board.count()
    }

    /// How many events are held after the acknowledged entries.
    pub fn held(&self) -> u64
        ensures { self.now.failed ≡ false → result ≡ length (held_events (acknowledged self.now.server)) }
    {
        self.board.held()
    }

    /// How many pairs are held after the acknowledged entries.
    pub fn pairs_held(&self) -> u64
        ensures { self.now.failed ≡ false → result ≡ length (held_pairs (acknowledged self.now.server)) }
    {
        self.board.pairs_held()
    }

    /// How many queries wait.
    pub fn waiting(&self) -> u64
        ensures { result ≡ length self.now.server.waiting }
    {
        self.waiting.len() as u64
    }

    /// Takes a packet that is addressed to the server. What it does with each message is `server_takes` of the
    /// definitions; a packet that it ignores changes nothing and sends nothing. `NoMemory` comes only of a packet that it
    /// heeds, or where it had failed.
    pub fn take(&mut self, packet: &Packet) -> Result<Effects, NoMemory>
        ensures { Takes self.old packet.now result self.new }
    {
        if self.failed {
            return Err(NoMemory);
        }
        match packet.from {
            Node::Manager => match &packet.message {
                Message::NewView { view } => self.take_view(view),
                _ => Ok(Effects::none(self.alloc)),
            },
            Node::Client(client) => match &packet.message {
                Message::Request { seq, command } => self.take_request(client, *seq, command),
                Message::Ask { q, part, pairs } => self.take_ask(client, *q, *part, pairs),
                _ => Ok(Effects::none(self.alloc)),
            },
            Node::Server(from) => match &packet.message {
                Message::Append { first, entries } => self.take_append(from, *first, entries),
                Message::Ack { done, len } => self.take_ack(from, *done, *len),
                _ => Ok(Effects::none(self.alloc)),
            },
        }
    }

    // So many entries are acknowledged from now on: those that were not before are applied, and the tail replies.
    fn advance(&mut self, upto: u64) -> Result<Effects, NoMemory>
        requires whole { self.old.failed ≡ false }
        requires low { self.old.server.done ≤ upto }
        requires high { upto ≤ length self.old.server.log }
        requires few { upto ≤ 2 ^ 58 }
        ensures { Does self.old (advances self.old.server upto) result self.new }
    {
        let tail = self.is_at_tail();
        self.failed = true;
        let committed = apply_upto(self.alloc, &mut self.board, &self.log, upto)?;
        let packets = replies_of(self.alloc, self.id, tail, &self.board, committed.as_slice())?;
        self.failed = false;
        Ok(Effects { committed, packets })
    }
}
