//! The plain steps of a round, read from the parts.

ghost use Rattle.std.specs.Prelude.{◌≡◌, ◌≤◌, ◌<◌, ◌+◌, ◌++◌, ◌&&◌, not, length, IfOk, OnOk};
ghost use Rattle.kr_protocol.specs.Client.{is_busy, learns};
ghost use Rattle.kr_world.specs.World.{packet_at, is_stopped};
ghost use Rattle.kr_world.specs.Round.{learn_events, tick_events, aim, learnt_retry_of, learnt_retry_events, may_take, is_under_way};
ghost use Rattle.kr_world.specs.Round.{delivery_events, work_events, round_calls, AreSettled};
ghost use Rattle.cluster_parts.specs.PartsStanding.{world_of};
ghost use Rattle.cluster_sim.specs.Parts.{event_in};
ghost use Rattle.cluster_parts.specs.BagStanding.{IsNumbered};

use crate::refusals::{has_stopped, is_stopped};
use client_session::Client;
use cluster_parts::Parts;
use kr_order::{ClientId, NoMemory, ServerId, View};
use script_lang::Event;
use std::alloc::Global;

// Puts the step of each client that learns the view behind those that are there.
fn put_learns(parts: &Parts, events: &mut Vec<Event>) -> Result<(), NoMemory>
    requires { length parts.now.clients.items ≤ 16 }
    ensures { OnOk result (events.new.items ≡ events.old.items ++ learn_events (world_of parts.now)) }
{
    let count = parts.clients.len() as u32;
    for i in 0..count {
        events.push(Event::Learn(ClientId(i + 1)))?;
    }
    Ok(())
}

// Puts the tick of each server that has not stopped behind those that are there.
fn put_ticks(parts: &Parts, events: &mut Vec<Event>) -> Result<(), NoMemory>
    requires { length parts.now.servers.items ≤ 64 }
    ensures { OnOk result (events.new.items ≡ events.old.items ++ tick_events (world_of parts.now)) }
{
    let count = parts.servers.len() as u32;
    for i in 0..count {
        let id = ServerId(i + 1);
        if !is_stopped(parts, id) {
            events.push(Event::Tick(Some(id)))?;
        }
    }
    Ok(())
}

// Where the client tries its open call again once it knows the view: a command at the first server, a query at the last; at
// 0, which no server has, where there is none.
fn aim(client: &Client, view: &View) -> ServerId
    ensures { result ≡ aim (learns client.now.client view.now) }
{
    let server = if client.has_command() {
        view.chain.get(0).copied()
    } else {
        view.last_member()
    };
    match server {
        Some(server) => server,
        None => ServerId(0),
    }
}

// Whether the client tries its open call again at the server.
fn tries(parts: &Parts, client: &Client, server: ServerId) -> bool
    ensures { result ≡ (is_busy client.now.client && not (is_stopped (world_of parts.now) server)) }
{
    client.is_busy() && !is_stopped(parts, server)
}

// The step in which the client at this index tries its open call again, if it does.
fn retry_of(parts: &Parts, i: usize) -> Option<Event>
    requires within { i < length parts.now.clients.items }
    requires few { length parts.now.clients.items ≤ 16 }
    ensures { event_in result ≡ learnt_retry_of (world_of parts.now) (i + 1) }
{
    let client = &parts.clients[i];
    let server = aim(client, parts.manager.current());
    if tries(parts, client, server) {
        Some(Event::Retry {
            client: ClientId(i as u32 + 1),
            server,
        })
    } else {
        None
    }
}

// Puts the steps in which clients try their open calls again behind those that are there.
fn put_retries(parts: &Parts, events: &mut Vec<Event>) -> Result<(), NoMemory>
    requires { length parts.now.clients.items ≤ 16 }
    ensures { OnOk result (events.new.items ≡ events.old.items ++ learnt_retry_events (world_of parts.now)) }
{
    for i in 0..parts.clients.len() {
        match retry_of(parts, i) {
            Some(event) => events.push(event)?,
            None => {}
        }
    }
    Ok(())
}

/// The first part of a round, before its deliveries.
pub fn calls(alloc: Global, parts: &Parts) -> Result<Vec<Event>, NoMemory>
    requires servers { length parts.now.servers.items ≤ 64 }
    requires clients { length parts.now.clients.items ≤ 16 }
    ensures { IfOk result (λ events. events.items ≡ round_calls (world_of parts.now)) }
{
    let mut events = Vec::new(alloc);
    put_learns(parts, &mut events)?;
    events.push(Event::Tick(None))?;
    put_ticks(parts, &mut events)?;
    put_retries(parts, &mut events)?;
    Ok(events)
}

// Whether packet k is there, and its addressee has not stopped.
fn may_take(parts: &Parts, k: u64) -> bool
    requires { 1 ≤ k }
    ensures { result ≡ may_take (world_of parts.now) (packet_at (world_of parts.now) k) }
{
    match parts.bag.to(k) {
        None => false,
        Some(to) => !has_stopped(parts, to),
    }
}

// Whether packet k is under way.
fn is_under_way(parts: &Parts, k: u64) -> bool
    requires { IsNumbered parts.now.bag k }
    ensures { result ≡ is_under_way (world_of parts.now) k }
{
    !parts.bag.is_delivered(k) && !parts.bag.is_lost(k) && may_take(parts, k)
}

/// How many packets are settled before the first that is under way, where so many are known to be.
pub fn settled(parts: &Parts, from: u64) -> u64
    requires { AreSettled (world_of parts.now) from }
    ensures { AreSettled (world_of parts.now) result }
{
    for i in from..parts.bag.len() {
        if is_under_way(parts, i + 1) {
            return i;
        }
    }
    parts.bag.len()
}

/// The deliveries of a round, where so many packets are settled.
pub fn deliveries(alloc: Global, parts: &Parts, from: u64) -> Result<Vec<Event>, NoMemory>
    requires { AreSettled (world_of parts.now) from }
    ensures { IfOk result (λ events. events.items ≡ delivery_events (world_of parts.now)) }
{
    let mut events = Vec::new(alloc);
    for i in from..parts.bag.len() {
        if is_under_way(parts, i + 1) {
            events.push(Event::Deliver(i + 1))?;
        }
    }
    Ok(events)
}

/// The work of a round.
pub fn works(alloc: Global, parts: &Parts) -> Result<Vec<Event>, NoMemory>
    requires { length parts.now.servers.items ≤ 64 }
    ensures { IfOk result (λ events. events.items ≡ work_events (world_of parts.now)) }
{
    let mut events = Vec::new(alloc);
    let count = parts.servers.len() as u32;
    for i in 0..count {
        let server = ServerId(i + 1);
        if !is_stopped(parts, server) {
            events.push(Event::Work { server, workers: 1 })?;
        }
    }
    Ok(events)
}
