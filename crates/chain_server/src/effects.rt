//! What a server's reaction brings.

ghost use Rattle.std.specs.Prelude.{◌≡◌, ◌∷◌, [], IfOk};

use kr_order::{DoneList, NoMemory, Packet, Packets};
use std::alloc::Global;

/// The entries that a server has newly applied, and the packets that it sends.
#[derive(Debug, Drop)]
pub struct Effects {
    pub committed: DoneList,
    pub packets: Packets,
}

impl Effects {
    /// Nothing applied, nothing sent. It takes no memory.
    pub fn none(alloc: Global) -> Self
        ensures committed { result.committed ≡ [] }
        ensures packets { result.packets ≡ [] }
    {
        Effects::of_packets(alloc, Packets::new(alloc))
    }

    /// Nothing applied, these packets sent. It takes no memory.
    pub fn of_packets(alloc: Global, packets: Packets) -> Self
        ensures committed { result.committed ≡ [] }
        ensures packets { result.packets ≡ packets }
    {
        Effects {
            committed: DoneList::new(alloc),
            packets,
        }
    }

    /// Nothing applied, one packet sent.
    pub fn of_packet(alloc: Global, packet: Packet) -> Result<Self, NoMemory>
        ensures committed { IfOk result (λ effects. effects.committed ≡ []) }
        ensures packets { IfOk result (λ effects. effects.packets ≡ packet ∷ []) }
    {
        let mut packets = Packets::new(alloc);
        packets.push(packet)?;
        Ok(Effects::of_packets(alloc, packets))
    }
}
