//! What becomes of packets: they are delivered, or lost.

ghost use Rattle.std.specs.Prelude.{◌≡◌, ◌≤◌, false, IfOk, None, All};
ghost use Rattle.kr_protocol.specs.Manager.{views_of};
ghost use Rattle.kr_world.specs.World.{client_at, server_at, is_stopped};
ghost use Rattle.kr_world.specs.Step.{arrives_at_client, arrives_at_server, arrives_at_manager, refusal_of, act};
ghost use Rattle.kr_world.specs.Sound.{IsSoundPacket};
ghost use Rattle.kr_wire.specs.Valid.{IsPacket};
ghost use Rattle.cluster_parts.specs.PartsStanding.{world_of};
ghost use Rattle.cluster_sim.specs.Parts.{IsWhole, Makes};

use crate::refusals::index_of;
use crate::step::calls::hear;
use crate::step::turns::carry_out;
use crate::step::views::promote;
use cluster_parts::{Noted, Parts};
use kr_order::{ClientId, Message, NoMemory, Node, Packet, ServerId};
use script_lang::Event;
use std::alloc::Global;

// A packet arrives at a client, which hears it.
fn arrive_at_client(parts: &mut Parts, client: ClientId, packet: &Packet) -> Result<Noted, NoMemory>
    requires whole { IsWhole parts.old }
    requires fit { All IsPacket
        (arrives_at_client (world_of parts.old) client packet.now (client_at (world_of parts.old) client)).after.bag }
    ensures { IfOk result
        (Makes (arrives_at_client (world_of parts.old) client packet.now (client_at (world_of parts.old) client)) parts.old.bag.before
        parts.new) }
{
    let i = index_of(u64::from(client.0));
    if i >= parts.clients.len() {
        return Ok(Noted::nothing());
    }
    let heard = parts.clients[i].take(packet)?;
    hear(&mut parts.bag, client, heard)
}

// A packet arrives at a server, which reacts to it.
fn arrive_at_server(
    alloc: Global,
    parts: &mut Parts,
    server: ServerId,
    packet: &Packet,
) -> Result<Noted, NoMemory>
    requires whole { IsWhole parts.old }
    requires said { IsSoundPacket (views_of parts.old.manager) (world_of parts.old).servers packet.now }
    requires runs { is_stopped (world_of parts.old) server ≡ false }
    requires fit { All IsPacket
        (arrives_at_server (world_of parts.old) server packet.now (server_at (world_of parts.old) server)).after.bag }
    ensures { IfOk result
        (Makes (arrives_at_server (world_of parts.old) server packet.now (server_at (world_of parts.old) server)) parts.old.bag.before
        parts.new) }
{
    let i = index_of(u64::from(server.0));
    if i >= parts.servers.len() {
        return Ok(Noted::nothing());
    }
    let node = &mut parts.servers[i];
    let before = node.done();
    let effects = node.take(packet)?;
    carry_out(alloc, parts, before, effects)?;
    Ok(Noted::nothing())
}

// A packet arrives at the manager, which hears of a joiner.
fn arrive_at_manager(parts: &mut Parts, packet: &Packet) -> Result<Noted, NoMemory>
    requires whole { IsWhole parts.old }
    requires said { IsSoundPacket (views_of parts.old.manager) (world_of parts.old).servers packet.now }
    requires fit { All IsPacket (arrives_at_manager (world_of parts.old) packet.now.from packet.now.message).after.bag }
    ensures { IfOk result
        (Makes (arrives_at_manager (world_of parts.old) packet.now.from packet.now.message) parts.old.bag.before parts.new) }
{
    match (packet.from, &packet.message) {
        (Node::Server(from), Message::Joined { joiner }) => promote(parts, from, *joiner),
        _ => Ok(Noted::nothing()),
    }
}

/// Packet k is decoded, and its addressee takes it. It is marked.
pub fn deliver(alloc: Global, parts: &mut Parts, k: u64) -> Result<Noted, NoMemory>
    requires whole { IsWhole parts.old }
    requires first { 1 ≤ k }
    requires free { refusal_of (world_of parts.old) (Event.Deliver k) ≡ None }
    requires fit { All IsPacket (act (world_of parts.old) (Event.Deliver k)).after.bag }
    ensures { IfOk result (Makes (act (world_of parts.old) (Event.Deliver k)) parts.old.bag.before parts.new) }
{
    let packet = parts.bag.packet(k)?;
    parts.bag.mark_delivered(k);
    match packet.to {
        Node::Manager => arrive_at_manager(parts, &packet),
        Node::Client(client) => arrive_at_client(parts, client, &packet),
        Node::Server(server) => arrive_at_server(alloc, parts, server, &packet),
    }
}

/// Packet k is lost: it is delivered no more.
pub fn lose(parts: &mut Parts, k: u64) -> Result<Noted, NoMemory>
    requires whole { IsWhole parts.old }
    requires first { 1 ≤ k }
    requires free { refusal_of (world_of parts.old) (Event.Lose k) ≡ None }
    ensures { IfOk result (Makes (act (world_of parts.old) (Event.Lose k)) parts.old.bag.before parts.new) }
{
    parts.bag.mark_lost(k);
    Ok(Noted::nothing())
}
