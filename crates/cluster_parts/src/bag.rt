//! The bag of a cluster: every packet that was sent, and which of them the current step has sent.
//!
//! Contracts see a `Bag` by its packets, the two lists of marks beside them, and how many packets there were before the
//! current step. A packet is kept as its bytes, and is decoded where it is delivered. What the step has sent is kept beside
//! them until the next step begins, so nothing is decoded for its lines.

ghost use Rattle.std.specs.Prelude.{◌≡◌, ◌≤◌, ◌<◌, ◌-◌, ◌^◌, ◌||◌, nat_le, [], ◌∷◌, length, drop, slice_get, All, IfOk, OnOk, Some};
ghost use Rattle.std.specs.Option.{option_map};
ghost use Rattle.kr_order.specs.Marks.{is_marked, marked};
ghost use Rattle.kr_world.specs.World.{bytes_of};
ghost use Rattle.kr_world.specs.Step.{bag_limit, byte_limit};
ghost use Rattle.kr_wire.specs.Valid.{IsPacket};
ghost use Rattle.cluster_parts.specs.BagStanding.{IsSent, IsNumbered, HasPackets};

use kr_order::{NoMemory, Node, Packet, Packets};
use kr_wire::{WireError, decode};
use std::alloc::Global;
use std::marker::Model;
use std::mem;

// From this many packets on, and from this many bytes on, no step that may send is taken.
const BAG_LIMIT: u64 = 65_000;

const BYTE_LIMIT: u64 = 268_435_456;

/// Every packet that was sent, in order, and beside each whether it was lost and whether it was delivered.
#[derive(Debug, Drop)]
pub struct Bag {
    net: net_bag::Bag,
    // what the current step has sent: the last packets of the bag
    fresh: Packets,
    alloc: Global,
}

impl Model for Bag {
    ghost use Rattle.std.specs.Prelude.{◌-◌, length, map};
    ghost use Rattle.cluster_parts.specs.BagStanding.{BagStanding, packet_of, IsFresh};

    ghost Value = { BagStanding };

    ghost view = { λ bag. record {
      packets = map packet_of bag.net.spellings;
      lost = bag.net.lost;
      delivered = bag.net.delivered;
      before = length bag.net.spellings - length bag.fresh;
    } };

    ghost invariant = { λ bag. IsFresh (map packet_of bag.net.spellings) bag.fresh };
}

impl Bag {
    /// The bag before the first packet. It takes no memory.
    pub fn new(alloc: Global) -> Self
        ensures { result ≡ record { packets = []; lost = []; delivered = []; before = 0 } }
    {
        Bag {
            net: net_bag::Bag::new(alloc),
            fresh: Packets::new(alloc),
            alloc,
        }
    }

    /// A step begins, which has sent nothing yet.
    pub fn begin(&mut self)
        ensures { self.new ≡ record self.old { before = length self.old.packets } }
    {
        self.fresh = Packets::new(self.alloc);
    }

    /// How many packets were sent.
    pub fn len(&self) -> u64
        ensures { result ≡ length self.now.packets }
    {
        self.net.len()
    }

    /// How many packets there were before the current step.
    pub fn before(&self) -> u64
        ensures value { result ≡ self.now.before }
        ensures within { self.now.before ≤ length self.now.packets }
        ensures few { length self.now.packets < 2 ^ 64 }
    {
        self.net.len() - self.fresh.len() as u64
    }

    /// The packets that the current step has sent.
    pub fn fresh(&self) -> &[Packet]
        ensures { result.now ≡ drop self.now.before self.now.packets }
    {
        self.fresh.as_slice()
    }

    /// Whether the bag is full, by its packets or by their bytes.
    pub fn is_full(&self) -> bool
        ensures { result ≡ (nat_le bag_limit (length self.now.packets) || nat_le byte_limit (bytes_of self.now.packets)) }
    {
        self.net.len() >= BAG_LIMIT || self.net.bytes() >= BYTE_LIMIT
    }

    /// Where packet k goes; `None` exactly where k is past the last packet.
    pub fn to(&self, k: u64) -> Option<Node>
        requires { 1 ≤ k }
        ensures { result ≡ option_map (λ packet. packet.to) (slice_get self.now.packets (k - 1)) }
    {
        self.net.to(k)
    }

    /// Packet k.
    pub fn packet(&self, k: u64) -> Result<Packet, NoMemory>
        requires { IsNumbered self.now k }
        ensures { IfOk result (λ packet. slice_get self.now.packets (k - 1) ≡ Some packet) }
    {
        let Some(bytes) = self.net.get(k) else {
            unreachable!()
        };
        match decode(self.alloc, bytes) {
            Ok(packet) => Ok(packet),
            Err(WireError::NoMemory) => Err(NoMemory),
            Err(WireError::Refused { .. }) => unreachable!(),
        }
    }

    /// Whether packet k was lost.
    pub fn is_lost(&self, k: u64) -> bool
        requires { IsNumbered self.now k }
        ensures { result ≡ is_marked self.now.lost k }
    {
        self.net.is_lost(k)
    }

    /// Whether packet k was delivered.
    pub fn is_delivered(&self, k: u64) -> bool
        requires { IsNumbered self.now k }
        ensures { result ≡ is_marked self.now.delivered k }
    {
        self.net.is_delivered(k)
    }

    /// Marks packet k as lost.
    pub fn mark_lost(&mut self, k: u64)
        requires { IsNumbered self.old k }
        ensures { self.new ≡ record self.old { lost = marked self.old.lost k } }
    {
        self.net.mark_lost(k);
    }

    /// Marks packet k as delivered.
    pub fn mark_delivered(&mut self, k: u64)
        requires { IsNumbered self.old k }
        ensures { self.new ≡ record self.old { delivered = marked self.old.delivered k } }
    {
        self.net.mark_delivered(k);
    }

    /// Puts the packet into the bag. After `NoMemory` nothing is said of the bag.
    pub fn send(&mut self, packet: Packet) -> Result<(), NoMemory>
        requires { IsPacket packet }
        ensures { OnOk result (IsSent self.old self.new (packet ∷ [])) }
    {
        let mut packets = Packets::new(self.alloc);
        packets.push(packet)?;
        self.send_all(packets)
    }

    /// Puts the packets into the bag, in their order. After `NoMemory` nothing is said of the bag.
    pub fn send_all(&mut self, packets: Packets) -> Result<(), NoMemory>
        requires { All IsPacket packets }
        ensures { OnOk result (IsSent self.old self.new packets) }
    {
        // until all are sent, none of the bag's packets counts as sent by the step
        let mut fresh = mem::replace(&mut self.fresh, Packets::new(self.alloc));
        spell_all(&mut self.net, packets.as_slice())?;
        fresh.append(packets)?;
        self.fresh = fresh;
        Ok(())
    }
}

// Puts the spellings of the packets behind those that are there.
fn spell_all(net: &mut net_bag::Bag, packets: &[Packet]) -> Result<(), NoMemory>
    requires { All IsPacket packets.now }
    ensures { OnOk result (HasPackets net.old net.new packets.now) }
{
    for packet in packets {
        net.send(packet)?;
    }
    Ok(())
}
