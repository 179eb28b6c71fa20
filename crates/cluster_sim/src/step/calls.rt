//! What clients do: commands, queries, and both tried again.

ghost use Rattle.std.specs.Prelude.{◌≡◌, ◌^◌, ◌-◌, IfOk, OnOk, None, All};
ghost use Rattle.kr_world.specs.Step.{told_to, refusal_of, act};
ghost use Rattle.cluster_parts.specs.PartsStanding.{world_of, told_in};
ghost use Rattle.cluster_sim.specs.Parts.{IsWhole, IsNotedOf, Makes};
ghost use Rattle.cluster_parts.specs.BagStanding.{IsSent};
ghost use Rattle.kr_wire.specs.Valid.{IsPacket};
ghost use Rattle.kr_world.specs.Sound.{HaveBegun};

use crate::refusals::index_of;
use client_session::{CallStop, Heard, RetryStop};
use cluster_parts::{Bag, Noted, Parts, PartsTelling, Telling};
use kr_order::{Asked, ClientId, Command, Copied, NoMemory, ServerId, ToldReply};
use script_lang::Event;
use std::alloc::Global;

/// The client begins the command, and its request is put into the bag.
pub fn call(
    alloc: Global,
    parts: &mut Parts,
    client: ClientId,
    command: &Command,
) -> Result<Noted, NoMemory>
    requires whole { IsWhole parts.old }
    requires free { refusal_of (world_of parts.old) (Event.Call client command.now) ≡ None }
    requires fit { All IsPacket (act (world_of parts.old) (Event.Call client command.now)).after.bag }
    ensures { IfOk result (Makes (act (world_of parts.old) (Event.Call client command.now)) parts.old.bag.before parts.new) }
{
    let i = index_of(u64::from(client.0));
    let command = command.copy(alloc)?;
    let node = &mut parts.clients[i];
    match node.begin(command) {
        Ok(packet) => {
            parts.bag.send(packet)?;
            Ok(Noted::nothing())
        }
        Err(CallStop::Busy) => unreachable!(),
        Err(CallStop::NoMemory) => Err(NoMemory),
    }
}

// What the client is told, with its number.
fn telling(client: ClientId, told: Option<ToldReply>) -> Option<Telling>
    ensures { told_in result ≡ told_to client told }
{
    match told {
        None => None,
        Some(reply) => Some(Telling { client, reply }),
    }
}

/// What the client has heard: its packets go into the bag, and what it is told is noted.
pub fn hear(bag: &mut Bag, client: ClientId, heard: Heard) -> Result<Noted, NoMemory>
    requires { All IsPacket heard.packets }
    ensures sent { OnOk result (IsSent bag.old bag.new heard.packets) }
    ensures noted { IfOk result (λ noted. IsNotedOf client heard noted) }
{
    let Heard {
        told,
        parts,
        packets,
    } = heard;
    bag.send_all(packets)?;
    Ok(Noted {
        told: telling(client, told),
        parts: Some(PartsTelling { client, parts }),
        shown: None,
        refused: None,
    })
}

/// The client begins a query: what it remembers is told, and its question to the server is put into the bag.
pub fn ask(
    parts: &mut Parts,
    client: ClientId,
    server: ServerId,
    pairs: &Asked,
) -> Result<Noted, NoMemory>
    requires whole { IsWhole parts.old }
    requires free { refusal_of (world_of parts.old) (Event.Query client server pairs.now) ≡ None }
    requires few { HaveBegun (2 ^ 63 - 1) (world_of parts.old).clients }
    requires fit { All IsPacket (act (world_of parts.old) (Event.Query client server pairs.now)).after.bag }
    ensures { IfOk result (Makes (act (world_of parts.old) (Event.Query client server pairs.now)) parts.old.bag.before parts.new) }
{
    let i = index_of(u64::from(client.0));
    let node = &mut parts.clients[i];
    match node.ask(pairs, server) {
        Ok(heard) => hear(&mut parts.bag, client, heard),
        Err(CallStop::Busy) => unreachable!(),
        Err(CallStop::NoMemory) => Err(NoMemory),
    }
}

/// The client's open call is put into the bag once more, for this server.
pub fn retry(parts: &mut Parts, client: ClientId, server: ServerId) -> Result<Noted, NoMemory>
    requires whole { IsWhole parts.old }
    requires free { refusal_of (world_of parts.old) (Event.Retry client server) ≡ None }
    requires fit { All IsPacket (act (world_of parts.old) (Event.Retry client server)).after.bag }
    ensures { IfOk result (Makes (act (world_of parts.old) (Event.Retry client server)) parts.old.bag.before parts.new) }
{
    let i = index_of(u64::from(client.0));
    match parts.clients[i].retry(server) {
        Ok(packet) => {
            parts.bag.send(packet)?;
            Ok(Noted::nothing())
        }
        Err(RetryStop::NothingOpen) => unreachable!(),
        Err(RetryStop::NoMemory) => Err(NoMemory),
    }
}
