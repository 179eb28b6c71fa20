//! Packets whole, and entries and replies by themselves.

ghost use Rattle.std.specs.Prelude.{◌≡◌, ◌≤◌, ◌++◌, length, drop, IfOk, OnOk, OnErr};
ghost use Rattle.kr_wire.specs.Valid.{IsEntry, IsReply, IsPacket};
ghost use Rattle.kr_wire.specs.Reading.{Gives, entry_at, reply_at, packet_by, packet_at, packet_in};
ghost use Rattle.kr_wire.specs.Taking.{entry_takes, reply_takes, packet_by_takes, packet_takes};
ghost use Rattle.kr_wire.specs.Spelling.{entry_bytes, reply_bytes, spelling};
ghost use Rattle.kr_wire.specs.Decoding.{Decodes, IsDecoded, IsAddressee, ReadsAt, RefusesAt, LacksOnly, Refuses};

use crate::fields::{byte_in, put_1, put_4};
use crate::items::Spelt;
use crate::messages::{message_at, message_number, put_message};
use crate::party::{MessageKind, kind_by};
use crate::replies::{add_reply, reply_from};
use crate::stop::{FieldError, WireError};
use crate::views::{node_at, node_number, node_of};
use kr_order::{Entry, Message, NoMemory, Node, Packet, Reply};
use std::alloc::Global;

/// The one spelling of the packet. `NoMemory` comes where there is no memory for it.
pub fn encode(alloc: Global, packet: &Packet) -> Result<Vec<u8>, NoMemory>
    requires { IsPacket packet.now }
    ensures { IfOk result (λ bytes. bytes.items ≡ spelling packet.now) }
{
    let mut out = Vec::with_capacity(alloc, packet.wire_len() as usize)?;
    put_1(&mut out, 1)?;
    put_1(&mut out, message_number(&packet.message))?;
    put_4(&mut out, node_number(packet.from))?;
    put_4(&mut out, node_number(packet.to))?;
    put_message(&mut out, &packet.message)?;
    Ok(out)
}

/// The packet that all of these bytes spell. `Refused` comes exactly where they spell none, and says where they
/// stop to spell one; `NoMemory` where there is no memory for the packet, and only where the first item of a list in it
/// was read.
pub fn decode(alloc: Global, bytes: &[u8]) -> Result<Packet, WireError>
    ensures reads { Decodes bytes.now result }
    ensures only { IsDecoded bytes.now result }
    ensures place { RefusesAt (length bytes.now) (packet_in bytes.now) result }
    ensures memory { LacksOnly (packet_takes bytes.now) result }
{
    match packet_in(alloc, bytes) {
        Ok(packet) => Ok(packet),
        Err(stop) => Err(refused(bytes, stop)),
    }
}

/// Where the packet goes that the bytes spell, by its header alone. Of bytes that spell no packet nothing is said. It
/// takes no memory.
pub fn addressee(bytes: &[u8]) -> Option<Node>
    ensures { IsAddressee bytes.now result }
{
    if bytes.len() < 10 {
        return None;
    }
    let id = u32::from_be_bytes([bytes[6], bytes[7], bytes[8], bytes[9]]);
    Some(node_of(kind_by(bytes[1]).addressee(), id))
}

/// The entry that is spelt from place `at` on, counted from 0, and the place after it. `Refused` comes exactly where
/// none is spelt from there on, and says where the bytes stop to spell one; `NoMemory` where there is no memory,
/// and only where the first item of a list was read.
pub fn entry_at(alloc: Global, bytes: &[u8], at: usize) -> Result<(Entry, usize), WireError>
    requires { at ≤ length bytes.now }
    ensures reads { ReadsAt entry_bytes IsEntry bytes.now at result }
    ensures place { RefusesAt (length bytes.now) (entry_at (drop at bytes.now)) result }
    ensures memory { LacksOnly (entry_takes (drop at bytes.now)) result }
{
    match Entry::read(alloc, bytes.split_at(at).1) {
        Ok((entry, rest)) => Ok((entry, bytes.len().saturating_sub(rest.len()))),
        Err(stop) => Err(refused(bytes, stop)),
    }
}

/// The reply that is spelt from place `at` on, counted from 0, and the place after it. `Refused` comes exactly where
/// none is spelt from there on, and says where the bytes stop to spell one; `NoMemory` where there is no memory,
/// and only where the first item of a list was read.
pub fn reply_at(alloc: Global, bytes: &[u8], at: usize) -> Result<(Reply, usize), WireError>
    requires { at ≤ length bytes.now }
    ensures reads { ReadsAt reply_bytes IsReply bytes.now at result }
    ensures place { RefusesAt (length bytes.now) (reply_at (drop at bytes.now)) result }
    ensures memory { LacksOnly (reply_takes (drop at bytes.now)) result }
{
    match reply_from(alloc, bytes.split_at(at).1) {
        Ok((reply, rest)) => Ok((reply, bytes.len().saturating_sub(rest.len()))),
        Err(stop) => Err(refused(bytes, stop)),
    }
}

/// Puts the entry's spelling behind what `out` holds. `NoMemory` comes where there is no memory for it, and leaves
/// `out` as it was.
pub fn put_entry(out: &mut Vec<u8>, entry: &Entry) -> Result<(), NoMemory>
    ensures ok { OnOk result (out.new.items ≡ out.old.items ++ entry_bytes entry.now) }
    ensures err { OnErr result (out.new.items ≡ out.old.items) }
{
    let mut bytes = Vec::new(*out.allocator());
    entry.put(&mut bytes)?;
    out.extend_from_slice(&bytes)?;
    Ok(())
}

/// Puts the reply's spelling behind what `out` holds. `NoMemory` comes where there is no memory for it, and leaves
/// `out` as it was.
pub fn put_reply(out: &mut Vec<u8>, reply: &Reply) -> Result<(), NoMemory>
    requires { IsReply reply.now }
    ensures ok { OnOk result (out.new.items ≡ out.old.items ++ reply_bytes reply.now) }
    ensures err { OnErr result (out.new.items ≡ out.old.items) }
{
    let mut bytes = Vec::new(*out.allocator());
    add_reply(&mut bytes, reply)?;
    out.extend_from_slice(&bytes)?;
    Ok(())
}

// What is answered of bytes that are not read.
fn refused(bytes: &[u8], stop: FieldError) -> WireError
    ensures { Refuses (length bytes.now) stop result }
{
    match stop {
        FieldError::Broken { left } => WireError::Refused {
            at: bytes.len().saturating_sub(left),
        },
        FieldError::NoMemory => WireError::NoMemory,
    }
}

// Sender, addressee and message of the kind that the front of the bytes spells, and what follows.
#[tactic(auto, unfolding(crate::specs::Reading::packet_by, crate::specs::Taking::packet_by_takes))]
fn packet_by(
    alloc: Global,
    kind: MessageKind,
    bytes: &[u8],
) -> Result<(((Node, Node), Message), &[u8]), FieldError>
    ensures { Gives (packet_by_takes kind bytes.now) (λ read. (read.0, read.1.now)) result (packet_by kind bytes.now) }
{
    let (from, rest) = node_at(kind.sender(), bytes)?;
    let (to, rest) = node_at(kind.addressee(), rest)?;
    let (message, rest) = message_at(alloc, kind, rest)?;
    Ok((((from, to), message), rest))
}

// The packet that the front of the bytes spells, and what follows.
#[tactic(auto, unfolding(crate::specs::Reading::packet_at, crate::specs::Reading::message_kind_at, crate::specs::Taking::packet_takes))]
fn packet_at(alloc: Global, bytes: &[u8]) -> Result<(Packet, &[u8]), FieldError>
    ensures { Gives (packet_takes bytes.now) (λ read. (read.0, read.1.now)) result (packet_at bytes.now) }
{
    let (_, rest) = byte_in(1, 1, bytes)?;
    let (number, rest) = byte_in(1, 9, rest)?;
    let (((from, to), message), rest) = packet_by(alloc, kind_by(number), rest)?;
    Ok((Packet { from, to, message }, rest))
}

// The packet that all of the bytes spell.
#[tactic(auto, unfolding(crate::specs::Reading::packet_in))]
fn packet_in(alloc: Global, bytes: &[u8]) -> Result<Packet, FieldError>
    ensures { Gives (packet_takes bytes.now) (λ packet. packet) result (packet_in bytes.now) }
{
    let (packet, rest) = packet_at(alloc, bytes)?;
    if rest.is_empty() {
        Ok(packet)
    } else {
        Err(FieldError::Broken { left: rest.len() })
    }
}
