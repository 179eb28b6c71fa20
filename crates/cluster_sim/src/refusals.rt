//! Why a step is refused.

ghost use Rattle.std.specs.Prelude.{◌≡◌, ◌-◌, ◌≤◌};
ghost use Rattle.kr_protocol.specs.Manager.{members_but};
ghost use Rattle.kr_world.specs.World.{client_at, server_at, packet_at, is_stopped, has_stopped};
ghost use Rattle.kr_world.specs.Step.{if_full, refusal_of, call_refusal, server_refusal, query_refusal, retry_refusal, turn_refusal};
ghost use Rattle.kr_world.specs.Step.{arrival_refusal, deliver_refusal, loss_refusal, lose_refusal, tick_refusal, have_stopped};
ghost use Rattle.kr_world.specs.Step.{is_last_running, stop_refusal, notice_refusal, join_refusal, show_refusal, learn_refusal};
ghost use Rattle.cluster_parts.specs.PartsStanding.{world_of};
ghost use Rattle.cluster_parts.specs.BagStanding.{IsNumbered};
ghost use Rattle.script_lang.specs.Event.{IsEvent};

use chain_manager::MOST_SERVERS;
use cluster_parts::Parts;
use kr_order::{ClientId, Node, ServerId};
use kr_world::Refusal;
use script_lang::Event;

/// The index of what has this number, from 1; 0 for 0.
pub fn index_of(number: u64) -> usize
    ensures { result ≡ number - 1 }
{
    (number as usize).saturating_sub(1)
}

// A step that may send is refused where the bag is full.
fn if_full(parts: &Parts) -> Option<Refusal>
    ensures { result ≡ if_full (world_of parts.now) }
{
    if parts.bag.is_full() {
        Some(Refusal::BagFull)
    } else {
        None
    }
}

// Why a call of the client is refused.
fn call_refusal(parts: &Parts, client: ClientId) -> Option<Refusal>
    ensures { result ≡ call_refusal (world_of parts.now) (client_at (world_of parts.now) client) }
{
    let Some(node) = parts.clients.get(index_of(u64::from(client.0))) else {
        return Some(Refusal::NoSuchClient);
    };
    if node.is_busy() {
        Some(Refusal::Busy)
    } else {
        if_full(parts)
    }
}

/// Whether the server has stopped.
pub fn is_stopped(parts: &Parts, server: ServerId) -> bool
    ensures { result ≡ is_stopped (world_of parts.now) server }
{
    match parts.stopped.get(index_of(u64::from(server.0))) {
        None => false,
        Some(mark) => *mark,
    }
}

// Why a server that is to do something is refused: it has to be there and must not have stopped; then what else refuses it.
fn server_refusal(parts: &Parts, server: ServerId, rest: Option<Refusal>) -> Option<Refusal>
    ensures { result ≡ server_refusal (world_of parts.now) server (server_at (world_of parts.now) server) rest }
{
    if parts.servers.get(index_of(u64::from(server.0))).is_none() {
        return Some(Refusal::NoSuchServer);
    }
    if is_stopped(parts, server) {
        Some(Refusal::Stopped)
    } else {
        rest
    }
}

// Why a query of the client at the server is refused.
fn query_refusal(parts: &Parts, client: ClientId, server: ServerId) -> Option<Refusal>
    ensures { result ≡ query_refusal (world_of parts.now) server (client_at (world_of parts.now) client)
        (server_at (world_of parts.now) server) }
{
    let Some(node) = parts.clients.get(index_of(u64::from(client.0))) else {
        return Some(Refusal::NoSuchClient);
    };
    let rest = if node.is_busy() {
        Some(Refusal::Busy)
    } else {
        if_full(parts)
    };
    server_refusal(parts, server, rest)
}

// Why the client's open call is not tried again at the server.
fn retry_refusal(parts: &Parts, client: ClientId, server: ServerId) -> Option<Refusal>
    ensures { result ≡ retry_refusal (world_of parts.now) server (client_at (world_of parts.now) client)
        (server_at (world_of parts.now) server) }
{
    let Some(node) = parts.clients.get(index_of(u64::from(client.0))) else {
        return Some(Refusal::NoSuchClient);
    };
    let rest = if node.is_busy() {
        if_full(parts)
    } else {
        Some(Refusal::NothingOpen)
    };
    server_refusal(parts, server, rest)
}

// Why the server's turn, to work or to tick, is refused.
fn turn_refusal(parts: &Parts, server: ServerId) -> Option<Refusal>
    ensures { result ≡ turn_refusal (world_of parts.now) server (server_at (world_of parts.now) server) }
{
    server_refusal(parts, server, if_full(parts))
}

/// Whether the node has stopped; only a server may have.
pub fn has_stopped(parts: &Parts, node: Node) -> bool
    ensures { result ≡ has_stopped (world_of parts.now) node }
{
    match node {
        Node::Manager | Node::Client(_) => false,
        Node::Server(server) => is_stopped(parts, server),
    }
}

// Why a delivery of packet k, which goes to this node, is refused.
fn arrival_refusal(parts: &Parts, k: u64, to: Node) -> Option<Refusal>
    requires { IsNumbered parts.now.bag k }
    ensures { result ≡ arrival_refusal (world_of parts.now) k to }
{
    if has_stopped(parts, to) {
        return Some(Refusal::Stopped);
    }
    if parts.bag.is_lost(k) {
        Some(Refusal::Lost)
    } else {
        if_full(parts)
    }
}

// Why a delivery of packet k is refused.
fn deliver_refusal(parts: &Parts, k: u64) -> Option<Refusal>
    requires { 1 ≤ k }
    ensures { result ≡ deliver_refusal (world_of parts.now) k (packet_at (world_of parts.now) k) }
{
    match parts.bag.to(k) {
        None => Some(Refusal::NoSuchPacket),
        Some(to) => arrival_refusal(parts, k, to),
    }
}

// Why packet k, which is there, is not lost.
fn loss_refusal(parts: &Parts, k: u64) -> Option<Refusal>
    requires { IsNumbered parts.now.bag k }
    ensures { result ≡ loss_refusal (world_of parts.now) k }
{
    if parts.bag.is_lost(k) {
        Some(Refusal::Lost)
    } else {
        None
    }
}

// Why packet k is not lost.
fn lose_refusal(parts: &Parts, k: u64) -> Option<Refusal>
    requires { 1 ≤ k }
    ensures { result ≡ lose_refusal (world_of parts.now) k (packet_at (world_of parts.now) k) }
{
    match parts.bag.to(k) {
        None => Some(Refusal::NoSuchPacket),
        Some(_) => loss_refusal(parts, k),
    }
}

// Why a tick is refused.
fn tick_refusal(parts: &Parts, who: Option<ServerId>) -> Option<Refusal>
    ensures { result ≡ tick_refusal (world_of parts.now) who }
{
    match who {
        None => if_full(parts),
        Some(server) => turn_refusal(parts, server),
    }
}

// Whether all of these but one have stopped.
fn others_stopped(parts: &Parts, chain: &[ServerId], id: ServerId) -> bool
    ensures { result ≡ have_stopped (world_of parts.now) (members_but chain.now id) }
{
    let mut all = true;
    for member in chain {
        all = all && (member.0 == id.0 || is_stopped(parts, *member));
    }
    all
}

// Whether the server is in the chain of the current view, and all other members of it have stopped.
fn is_last_running(parts: &Parts, id: ServerId) -> bool
    ensures { result ≡ is_last_running (world_of parts.now) id }
{
    let view = parts.manager.current();
    view.in_chain(id) && others_stopped(parts, view.chain.as_slice(), id)
}

// Why the server does not stop.
fn stop_refusal(parts: &Parts, server: ServerId) -> Option<Refusal>
    ensures { result ≡ stop_refusal (world_of parts.now) server (server_at (world_of parts.now) server) }
{
    let Some(node) = parts.servers.get(index_of(u64::from(server.0))) else {
        return Some(Refusal::NoSuchServer);
    };
    if is_stopped(parts, server) {
        return Some(Refusal::Stopped);
    }
    if is_last_running(parts, node.id()) {
        Some(Refusal::LastServer)
    } else {
        None
    }
}

// Why the manager does not hear of the server's stop.
fn notice_refusal(parts: &Parts, server: ServerId) -> Option<Refusal>
    ensures { result ≡ notice_refusal (world_of parts.now) server (server_at (world_of parts.now) server) }
{
    let Some(node) = parts.servers.get(index_of(u64::from(server.0))) else {
        return Some(Refusal::NoSuchServer);
    };
    if !is_stopped(parts, server) {
        return Some(Refusal::NotStopped);
    }
    if parts.manager.names(node.id()) {
        if_full(parts)
    } else {
        Some(Refusal::NotMember)
    }
}

// Why no server joins.
fn join_refusal(parts: &Parts) -> Option<Refusal>
    ensures { result ≡ join_refusal (world_of parts.now) }
{
    if parts.manager.current().joiner.is_some() {
        return Some(Refusal::JoinerThere);
    }
    if parts.manager.made() >= MOST_SERVERS {
        Some(Refusal::ServersSpent)
    } else {
        if_full(parts)
    }
}

// Why a server is not shown.
fn show_refusal(parts: &Parts, server: ServerId) -> Option<Refusal>
    ensures { result ≡ show_refusal (world_of parts.now) server (server_at (world_of parts.now) server) }
{
    server_refusal(parts, server, None)
}

// Why a client does not learn the view.
fn learn_refusal(parts: &Parts, client: ClientId) -> Option<Refusal>
    ensures { result ≡ learn_refusal (client_at (world_of parts.now) client) }
{
    match parts.clients.get(index_of(u64::from(client.0))) {
        None => Some(Refusal::NoSuchClient),
        Some(_) => None,
    }
}

/// Why the event is refused, if it is.
pub fn refusal(parts: &Parts, event: &Event) -> Option<Refusal>
    requires { IsEvent event.now }
    ensures { result ≡ refusal_of (world_of parts.now) event.now }
{
    match event {
        Event::Call { client, .. } => call_refusal(parts, *client),
        Event::Query { client, server, .. } => query_refusal(parts, *client, *server),
        Event::Retry { client, server } => retry_refusal(parts, *client, *server),
        Event::Deliver(k) => deliver_refusal(parts, *k),
        Event::Lose(k) => lose_refusal(parts, *k),
        Event::Tick(who) => tick_refusal(parts, *who),
        Event::Work { server, .. } => turn_refusal(parts, *server),
        Event::Stop(server) => stop_refusal(parts, *server),
        Event::Notice(server) => notice_refusal(parts, *server),
        Event::Show(server) => show_refusal(parts, *server),
        Event::Join => join_refusal(parts),
        Event::Round => if_full(parts),
        Event::Learn(client) => learn_refusal(parts, *client),
    }
}
