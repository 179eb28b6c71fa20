//! What servers do by themselves: they tick and work, and are shown.

ghost use Rattle.std.specs.Prelude.{◌≡◌, None, IfOk, OnOk, All};
ghost use Rattle.kr_world.specs.World.{server_at};
ghost use Rattle.kr_world.specs.Step.{turn_refusal, ticks_at, refusal_of, act};
ghost use Rattle.cluster_parts.specs.PartsStanding.{world_of, noted};
ghost use Rattle.cluster_sim.specs.Parts.{IsWhole, Makes};
ghost use Rattle.cluster_parts.specs.BagStanding.{IsSent};
ghost use Rattle.kr_wire.specs.Valid.{IsPacket};

use crate::refusals::index_of;
use crate::step::views::tell;
use chain_server::Effects;
use cluster_parts::{Noted, Parts, note};
use kr_order::{NoMemory, ServerId};
use kr_world::Shown;
use script_lang::Event;
use std::alloc::Global;
use std::thread::Threads;

/// What a server that had applied so many entries has done: its packets go into the bag, and what it has newly
/// applied into the journal, where it is new to the history.
pub fn carry_out(
    alloc: Global,
    parts: &mut Parts,
    before: u64,
    effects: Effects,
) -> Result<(), NoMemory>
    requires { All IsPacket effects.packets }
    ensures manager { parts.new.manager ≡ parts.old.manager }
    ensures servers { parts.new.servers ≡ parts.old.servers }
    ensures stopped { parts.new.stopped ≡ parts.old.stopped }
    ensures clients { parts.new.clients ≡ parts.old.clients }
    ensures bag { OnOk result (IsSent parts.old.bag parts.new.bag effects.packets) }
    ensures journal { OnOk result (parts.new.journal ≡ noted parts.old.journal before effects.committed) }
{
    parts.bag.send_all(effects.packets)?;
    note(alloc, &mut parts.journal, before, effects.committed)
}

/// The server answers the queries that wait at it.
pub fn work<R: Threads + Sync>(
    rt: &R,
    alloc: Global,
    parts: &mut Parts,
    server: ServerId,
    workers: u32,
) -> Result<Noted, NoMemory>
    requires whole { IsWhole parts.old }
    requires free { refusal_of (world_of parts.old) (Event.Work server workers) ≡ None }
    requires fit { All IsPacket (act (world_of parts.old) (Event.Work server workers)).after.bag }
    ensures { IfOk result (Makes (act (world_of parts.old) (Event.Work server workers)) parts.old.bag.before parts.new) }
{
    let i = index_of(u64::from(server.0));
    if i >= parts.servers.len() {
        return Ok(Noted::nothing());
    }
    let node = &mut parts.servers[i];
    let before = node.done();
    let effects = node.work(rt, workers)?;
    carry_out(alloc, parts, before, effects)?;
    Ok(Noted::nothing())
}

// The server tells those beside it how far it is.
fn tick_at(alloc: Global, parts: &mut Parts, server: ServerId) -> Result<Noted, NoMemory>
    requires whole { IsWhole parts.old }
    requires free { turn_refusal (world_of parts.old) server (server_at (world_of parts.old) server) ≡ None }
    requires fit { All IsPacket (ticks_at (world_of parts.old) server (server_at (world_of parts.old) server)).after.bag }
    ensures { IfOk result
        (Makes (ticks_at (world_of parts.old) server (server_at (world_of parts.old) server)) parts.old.bag.before parts.new) }
{
    let i = index_of(u64::from(server.0));
    if i >= parts.servers.len() {
        return Ok(Noted::nothing());
    }
    let node = &mut parts.servers[i];
    let before = node.done();
    let effects = node.tick()?;
    carry_out(alloc, parts, before, effects)?;
    Ok(Noted::nothing())
}

/// A tick: of a server, or of the manager, which tells the servers again of its view.
pub fn tick(alloc: Global, parts: &mut Parts, who: Option<ServerId>) -> Result<Noted, NoMemory>
    requires whole { IsWhole parts.old }
    requires free { refusal_of (world_of parts.old) (Event.Tick who) ≡ None }
    requires fit { All IsPacket (act (world_of parts.old) (Event.Tick who)).after.bag }
    ensures { IfOk result (Makes (act (world_of parts.old) (Event.Tick who)) parts.old.bag.before parts.new) }
{
    match who {
        None => tell(parts),
        Some(server) => tick_at(alloc, parts, server),
    }
}

/// What the server has is shown.
pub fn show(parts: &mut Parts, server: ServerId) -> Result<Noted, NoMemory>
    requires whole { IsWhole parts.old }
    ensures { IfOk result (Makes (act (world_of parts.old) (Event.Show server)) parts.old.bag.before parts.new) }
{
    let Some(node) = parts.servers.get(index_of(u64::from(server.0))) else {
        return Ok(Noted::nothing());
    };
    let shown = Shown {
        server,
        view: node.view_number(),
        log: node.len(),
        done: node.done(),
        held: node.held(),
        pairs: node.pairs_held(),
        waiting: node.waiting(),
    };
    Ok(Noted {
        told: None,
        parts: None,
        shown: Some(shown),
        refused: None,
    })
}
