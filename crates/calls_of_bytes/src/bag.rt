//! Each call of a bag, where memory suffices.

ghost use Rattle.std.specs.Prelude.{◌≤◌};
ghost use Rattle.kr_wire.specs.Valid.{IsPacket};

use kr_order::{ClientId, Command, Message, NoMemory, Node, Packet, ServerId};
use net_bag::*;
use std::alloc::Global;
use std::test::Fail;

// A bag can be moved to a thread.
fn crosses_threads<T: Send + Sync>(_value: &T) {}

// The client's first request, a create, to server 1.
fn request(client: u32) -> Packet
    requires { 1 ≤ client }
    ensures { IsPacket result }
{
    Packet {
        from: Node::Client(ClientId(client)),
        to: Node::Server(ServerId(1)),
        message: Message::Request {
            seq: 1,
            command: Command::Create,
        },
    }
}

// A bag with so many requests.
fn bag_of(alloc: Global, count: u32) -> Result<Bag, NoMemory> {
    let mut bag = Bag::new(alloc);
    for _ in 0..count {
        bag.send(&request(1))?;
    }
    Ok(bag)
}

// Marks packets 1 up to the last of these as delivered.
fn mark_up_to(bag: &mut Bag, last: u64) {
    for k in 1..=last {
        if k <= bag.len() {
            bag.mark_delivered(k);
        }
    }
}

#[test]
fn packets_stand_at_their_numbers(rt: HostRuntime) -> Result<(), Fail> {
    let mut bag = Bag::new(rt.alloc());
    crosses_threads(&bag);
    assert_eq!(rt; bag.send(&request(1))?, 1);
    assert_eq!(rt; bag.send(&request(2))?, 2);
    let second = b"\x01\x01\x00\x00\x00\x02\x00\x00\x00\x01\x00\x00\x00\x00\x00\x00\x00\x01\x01";
    assert_eq!(rt; bag.get(2), Some(second.as_slice()));
    assert_eq!(rt; bag.to(1), Some(Node::Server(ServerId(1))));
    assert_eq!(rt; (bag.len(), bag.bytes()), (2, 38));
    Ok(())
}

#[test]
fn other_numbers_have_no_packet(rt: HostRuntime) -> Result<(), Fail> {
    let bag = bag_of(rt.alloc(), 2)?;
    assert!(rt; bag.get(0).is_none() && bag.get(3).is_none());
    assert!(rt; bag.to(0).is_none() && bag.to(3).is_none());
    Ok(())
}

#[test]
fn marks_stand_beside_their_packets(rt: HostRuntime) -> Result<(), Fail> {
    let mut bag = bag_of(rt.alloc(), 2)?;
    assert_eq!(rt; bag.len(), 2);
    bag.mark_lost(2);
    assert!(rt; bag.is_lost(2) && !bag.is_delivered(2));
    bag.mark_delivered(1);
    assert!(rt; bag.is_delivered(1) && !bag.is_lost(1));
    Ok(())
}

#[test]
fn what_is_marked_is_passed_over(rt: HostRuntime) -> Result<(), Fail> {
    let mut bag = bag_of(rt.alloc(), 130)?;
    assert_eq!(rt; bag.next_undelivered(0, 130), Some(1));
    mark_up_to(&mut bag, 129);
    assert_eq!(rt; bag.next_undelivered(0, 1000), Some(130));
    assert_eq!(rt; bag.next_undelivered(0, 129), None);
    assert_eq!(rt; bag.next_undelivered(130, 1000), None);
    Ok(())
}
