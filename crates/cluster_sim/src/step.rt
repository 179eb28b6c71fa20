//! The steps of a cluster: what an event does that is not refused.

mod calls;
mod packets;
mod turns;
mod views;

ghost use Rattle.std.specs.Prelude.{◌≡◌, ◌^◌, ◌-◌, IfOk, OnErr, None, All};
ghost use Rattle.kr_world.specs.Sound.{HaveBegun};
ghost use Rattle.kr_world.specs.Step.{refusal_of, act, step as world_step};
ghost use Rattle.script_lang.specs.Event.{IsEvent};
ghost use Rattle.kr_wire.specs.Valid.{IsPacket};
ghost use Rattle.cluster_parts.specs.PartsStanding.{world_of};
ghost use Rattle.cluster_sim.specs.Parts.{IsWhole, IsAtRest, Makes};

use crate::refusals::refusal;
use cluster_parts::{Noted, Parts};
use kr_order::NoMemory;
use script_lang::Event;
use std::alloc::Global;
use std::thread::Threads;

// Does what an event does that is not refused.
fn act<R: Threads + Sync>(
    rt: &R,
    alloc: Global,
    parts: &mut Parts,
    event: &Event,
) -> Result<Noted, NoMemory>
    requires whole { IsWhole parts.old }
    requires free { refusal_of (world_of parts.old) event.now ≡ None }
    requires event { IsEvent event.now }
    requires few { HaveBegun (2 ^ 63 - 1) (world_of parts.old).clients }
    requires fit { All IsPacket (act (world_of parts.old) event.now).after.bag }
    ensures { IfOk result (Makes (act (world_of parts.old) event.now) parts.old.bag.before parts.new) }
{
    match event {
        Event::Call { client, command } => calls::call(alloc, parts, *client, command),
        Event::Query {
            client,
            server,
            pairs,
        } => calls::ask(parts, *client, *server, pairs),
        Event::Retry { client, server } => calls::retry(parts, *client, *server),
        Event::Deliver(k) => packets::deliver(alloc, parts, *k),
        Event::Lose(k) => packets::lose(parts, *k),
        Event::Tick(who) => turns::tick(alloc, parts, *who),
        Event::Work { server, workers } => turns::work(rt, alloc, parts, *server, *workers),
        Event::Stop(server) => views::stop(parts, *server),
        Event::Notice(server) => views::notice(parts, *server),
        Event::Show(server) => turns::show(parts, *server),
        Event::Join => views::join(alloc, parts),
        Event::Round => Ok(Noted::nothing()),
        Event::Learn(client) => views::learn(parts, *client),
    }
}

/// Does what the event does to the parts, and answers what is to be noted of it. A step that is refused takes no memory.
pub fn step<R: Threads + Sync>(
    rt: &R,
    alloc: Global,
    parts: &mut Parts,
    event: &Event,
) -> Result<Noted, NoMemory>
    requires rest { IsAtRest parts.old }
    requires event { IsEvent event.now }
    requires few { HaveBegun (2 ^ 63 - 1) (world_of parts.old).clients }
    ensures ok { IfOk result (Makes (world_step (world_of parts.old) event.now) parts.old.bag.before parts.new) }
    ensures memory { OnErr result (refusal_of (world_of parts.old) event.now ≡ None) }
{
    match refusal(parts, event) {
        Some(why) => Ok(Noted {
            told: None,
            parts: None,
            shown: None,
            refused: Some(why),
        }),
        None => act(rt, alloc, parts, event),
    }
}
