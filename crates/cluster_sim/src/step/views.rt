//! Servers stop, the manager makes views, and clients learn them.

ghost use Rattle.std.specs.Prelude.{◌≡◌, ◌≢◌, ◌<◌, [], ◌∷◌, ◌++◌, true, false, None, IfOk, OnOk, All};
ghost use Rattle.kr_order.specs.View.{names};
ghost use Rattle.kr_protocol.specs.Manager.{next_server, removes, adds, views_of};
ghost use Rattle.kr_protocol.specs.Server.{newcomer};
ghost use Rattle.kr_world.specs.Step.{manager_tells, joined_at_manager, joins, refusal_of, act};
ghost use Rattle.kr_world.specs.Sound.{HasJoined};
ghost use Rattle.cluster_parts.specs.PartsStanding.{world_of};
ghost use Rattle.cluster_sim.specs.Parts.{IsWhole, Makes};
ghost use Rattle.kr_wire.specs.Valid.{IsPacket};

use crate::refusals::index_of;
use chain_manager::{Deny, MOST_SERVERS, Manager};
use chain_server::Server;
use cluster_parts::{Noted, Parts};
use kr_order::{ClientId, NoMemory, ServerId};
use order_state::PlainBoard;
use script_lang::Event;
use std::alloc::Global;

/// The manager tells all whom its current view names of it.
pub fn tell(parts: &mut Parts) -> Result<Noted, NoMemory>
    requires whole { IsWhole parts.old }
    requires fit { All IsPacket (manager_tells (world_of parts.old) parts.old.manager).after.bag }
    ensures { IfOk result (Makes (manager_tells (world_of parts.old) parts.old.manager) parts.old.bag.before parts.new) }
{
    let packets = parts.manager.announce()?;
    parts.bag.send_all(packets)?;
    Ok(Noted::nothing())
}

/// The server has stopped, for good.
pub fn stop(parts: &mut Parts, server: ServerId) -> Result<Noted, NoMemory>
    requires whole { IsWhole parts.old }
    requires free { refusal_of (world_of parts.old) (Event.Stop server) ≡ None }
    ensures { IfOk result (Makes (act (world_of parts.old) (Event.Stop server)) parts.old.bag.before parts.new) }
{
    let i = index_of(u64::from(server.0));
    parts.stopped[i] = true;
    Ok(Noted::nothing())
}

// The manager makes the view without a server that has stopped, which it names beside others.
fn remove(manager: &mut Manager, id: ServerId) -> Result<(), NoMemory>
    requires named { names manager.old.current id ≡ true }
    requires others { manager.old.current.chain ≢ id ∷ [] }
    ensures { OnOk result (manager.new ≡ removes manager.old id) }
{
    match manager.notice(id, true) {
        Ok(_) => Ok(()),
        Err(Deny::NoMemory) => Err(NoMemory),
        Err(_) => unreachable!(),
    }
}

/// The manager hears of a server that has stopped: it makes the next view, and tells of it.
pub fn notice(parts: &mut Parts, server: ServerId) -> Result<Noted, NoMemory>
    requires whole { IsWhole parts.old }
    requires free { refusal_of (world_of parts.old) (Event.Notice server) ≡ None }
    requires fit { All IsPacket (act (world_of parts.old) (Event.Notice server)).after.bag }
    ensures { IfOk result (Makes (act (world_of parts.old) (Event.Notice server)) parts.old.bag.before parts.new) }
{
    let id = parts.servers[index_of(u64::from(server.0))].id();
    remove(&mut parts.manager, id)?;
    tell(parts)
}

// A new server, with nothing in its log and no view, is behind the others.
fn add(alloc: Global, parts: &mut Parts, id: ServerId) -> Result<(), NoMemory>
    ensures manager { parts.new.manager ≡ parts.old.manager }
    ensures servers { OnOk result (parts.new.servers.items ≡ parts.old.servers.items ++ record { server = newcomer id; failed = false }
        ∷ []) }
    ensures stopped { OnOk result (parts.new.stopped.items ≡ parts.old.stopped.items ++ false ∷ []) }
    ensures clients { parts.new.clients ≡ parts.old.clients }
    ensures bag { parts.new.bag ≡ parts.old.bag }
    ensures journal { parts.new.journal ≡ parts.old.journal }
{
    parts
        .servers
        .push(Server::joiner(alloc, id, PlainBoard::new(alloc)))?;
    parts.stopped.push(false)?;
    Ok(())
}

// The manager makes the view with a new server as its joiner.
fn welcome(manager: &mut Manager) -> Result<ServerId, NoMemory>
    requires none { manager.old.current.joiner ≡ None }
    requires few { manager.old.made < MOST_SERVERS }
    ensures id { IfOk result (λ id. id ≡ next_server manager.old) }
    ensures new { OnOk result (manager.new ≡ adds manager.old) }
{
    match manager.join() {
        Ok((id, _)) => Ok(id),
        Err(Deny::NoMemory) => Err(NoMemory),
        Err(_) => unreachable!(),
    }
}

/// A new server joins: the manager makes the next view, of which it is the joiner, and tells of it.
pub fn join(alloc: Global, parts: &mut Parts) -> Result<Noted, NoMemory>
    requires whole { IsWhole parts.old }
    requires free { refusal_of (world_of parts.old) Event.Join ≡ None }
    requires fit { All IsPacket (act (world_of parts.old) Event.Join).after.bag }
    ensures { IfOk result (Makes (act (world_of parts.old) Event.Join) parts.old.bag.before parts.new) }
{
    let id = welcome(&mut parts.manager)?;
    add(alloc, parts, id)?;
    tell(parts)
}

/// The manager is told that the joiner has caught up: where the last member says so, it becomes a member, and the manager
/// tells of that.
pub fn promote(parts: &mut Parts, from: ServerId, joiner: ServerId) -> Result<Noted, NoMemory>
    requires whole { IsWhole parts.old }
    requires said { HasJoined (views_of parts.old.manager) (world_of parts.old).servers from joiner }
    requires fit { All IsPacket (joined_at_manager (world_of parts.old) from joiner).after.bag }
    ensures { IfOk result (Makes (joined_at_manager (world_of parts.old) from joiner) parts.old.bag.before parts.new) }
{
    match parts.manager.joined(from, joiner)? {
        None => Ok(Noted::nothing()),
        Some(_) => tell(parts),
    }
}

/// The client learns the manager's current view.
pub fn learn(parts: &mut Parts, client: ClientId) -> Result<Noted, NoMemory>
    requires whole { IsWhole parts.old }
    requires free { refusal_of (world_of parts.old) (Event.Learn client) ≡ None }
    ensures { IfOk result (Makes (act (world_of parts.old) (Event.Learn client)) parts.old.bag.before parts.new) }
{
    let i = index_of(u64::from(client.0));
    parts.clients[i].learn(parts.manager.current())?;
    Ok(Noted::nothing())
}
