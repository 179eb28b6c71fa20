//! Packets as bytes, against bytes and places that were computed from the table of fields by another program.

ghost use Rattle.std.specs.Prelude.{◌≤◌, length};
ghost use Rattle.kr_wire.specs.Valid.{IsEntry, IsPacket};

use kr_order::{
    ClientId, Command, Entry, EventId, Message, NoMemory, Node, Packet, Placed, Reply, ServerId,
};
use kr_wire::*;
use std::alloc::Global;
use std::test::Fail;

// A packet a line: each kind, with its fields at their least and at their greatest.
const PACKETS: &str = "\
01010000000100000001000000000000000101
0101ffffffffffffffffffffffffffffffff04ffffffffffffffff
0101000000010000000100000000000000020200
0101000000020000000300000000000000030202010000000000000001000000000000000202ffffffffffffffff0000000000000001
0102000000010000000200000000000000010200000001000000000000000101ffffffffffffffffffffffff03ffffffffffffffff
0103000000020000000100000000000000000000000000000000
0103ffffffff00000001ffffffffffffffffffffffffffffffff
010400000000000000010000000000000001010000000100000000
010400000000ffffffffffffffffffffffff030000000100000002fffffffeffffffff
010500000001000000010000000000000001010100000000000000010000000000000001
01050000000100000001ffffffffffffffff02020000000000000001ffffffffffffffffffffffffffffffff0000000000000001
0106000000010000000100000000000000010000000000000001010000000000000001
01060000000100000001ffffffffffffffffffffffffffffffff0203010203
010600000001ffffffff00000000000000010000000000000001030000000000000000
01060000000100000001000000000000000100000000000000010400000000
010600000001000000010000000000000001000000000000000105ffffffff
01070000000100000001000000000000000101000000000000000006010203040506
01070000000100000001ffffffffffffffff02ffffffffffffffff0101
01080000000200000001000000000000000102000000000000000202000000010000000300000004
0109000000010000000000000001
01090000000100000000ffffffff
";

// Bytes that spell no packet, and the place where they stop to spell one.
const REFUSED: &str = "\
010100000001000000010000000000000001 18
010100000001000000010000 10
01010000000100000001000000000000000105 18
0101000000010000000100000000000000010100 19
01010000000000000001000000000000000101 2
02010000000100000001000000000000000101 0
01000000000100000001000000000000000101 1
010a0000000100000001000000000000000101 1
01010000000100000000000000000000000101 6
01010000000100000001000000000000000001 10
01010000000100000001000000000000000102 19
0101000000010000000100000000000000010221 19
010200000001000000020000000000000001020000000100000000000000010100000002 36
0104000000010000000100000000000000010100000001000000 2
010400000000000000010000000000000001020000000200000002 23
01040000000000000001000000000000000101000000020000000200000000 23
010500000001000000010000000000000001030100000000000000010000000000000001 18
010500000001000000010000000000000001010000000000000000010000000000000001 19
01090000000100000001ffffffff 6
";

// The packets, of which no test has to look at the text.
fn packets() -> &'static str {
    PACKETS
}

// And the refusals.
fn refused_lines() -> &'static str {
    REFUSED
}

// The number that a digit of a hexadecimal number stands for.
fn digit(byte: u8) -> u8 {
    match byte {
        b'0'..=b'9' => byte - b'0',
        b'a'..=b'f' => byte - b'a' + 10,
        _ => 0,
    }
}

// The byte that two digits spell.
fn byte_of(pair: &[u8]) -> u8 {
    match pair {
        [high, low] => (digit(*high) & 15) << 4 | digit(*low),
        _ => 0,
    }
}

// The bytes that the text spells, two digits each.
fn bytes_of(alloc: Global, text: &str) -> Result<Vec<u8>, NoMemory> {
    let mut bytes = Vec::new(alloc);
    for pair in text.as_bytes().chunks(2) {
        bytes.push(byte_of(pair))?;
    }
    Ok(bytes)
}

// Whether the packet has these bytes, and says how many they are and where it goes.
fn is_written_so(alloc: Global, packet: &Packet, bytes: &[u8]) -> Result<bool, NoMemory>
    requires { IsPacket packet.now }
{
    let again = encode(alloc, packet)?;
    let counted = packet.wire_len() == bytes.len() as u64;
    Ok(counted && again.as_slice() == bytes && addressee(bytes) == Some(packet.to))
}

// Whether the bytes spell a packet, of which they are what is written.
fn comes_back(alloc: Global, bytes: &[u8]) -> Result<bool, NoMemory> {
    match decode(alloc, bytes) {
        Ok(packet) => is_written_so(alloc, &packet, bytes),
        Err(_) => Ok(false),
    }
}

// The place at which the bytes stop to spell a packet, 1,000,000 where they spell one, and 2,000,000 where there is no
// memory.
fn place_in(alloc: Global, bytes: &[u8]) -> u64 {
    match decode(alloc, bytes) {
        Ok(_) => 1_000_000,
        Err(WireError::Refused { at }) => at as u64,
        Err(WireError::NoMemory) => 2_000_000,
    }
}

// The sum of these for all fronts of the bytes.
fn places_of_fronts(alloc: Global, bytes: &[u8]) -> u64 {
    let mut sum: u64 = 0;
    for len in 0..bytes.len() {
        sum = sum.wrapping_add(place_in(alloc, bytes.split_at(len).0));
    }
    sum
}

// The place of the bytes with one of them altered in these bits.
fn place_of_altered(alloc: Global, bytes: &[u8], place: usize, bits: u8) -> Result<u64, NoMemory> {
    let mut other = Vec::from_slice(alloc, bytes)?;
    if let Some(byte) = other.get_mut(place) {
        *byte ^= bits;
    }
    Ok(place_in(alloc, &other))
}

// The sum of these for all bytes, each altered in the same bits.
fn places_of_altered(alloc: Global, bytes: &[u8], bits: u8) -> Result<u64, NoMemory> {
    let mut sum: u64 = 0;
    for place in 0..bytes.len() {
        sum = sum.wrapping_add(place_of_altered(alloc, bytes, place, bits)?);
    }
    Ok(sum)
}

// Whether the bytes of the line stop to spell a packet at the place that it names.
fn stops_there(alloc: Global, line: &str) -> Result<bool, NoMemory> {
    match line.split_once(' ') {
        Some((text, place)) => Ok(
            place.parse::<u64>().ok() == Some(place_in(alloc, &bytes_of(alloc, text)?)),
        ),
        None => Ok(false),
    }
}

// A create is told to a client.
fn reply() -> Packet
    ensures { IsPacket result }
{
    Packet {
        from: Node::Server(ServerId(1)),
        to: Node::Client(ClientId(1)),
        message: Message::Replied {
            seq: 1,
            placed: Placed {
                place: 1,
                reply: Reply::Created(EventId(1)),
            },
        },
    }
}

#[test]
fn packets_of_each_kind_go_there_and_back(rt: HostRuntime) -> Result<(), Fail> {
    for line in packets().lines() {
        assert!(rt;
            comes_back(rt.alloc(), &bytes_of(rt.alloc(), line)?)?,
            "{line}"
        );
    }
    Ok(())
}

#[test]
fn a_refusal_says_where_the_bytes_break(rt: HostRuntime) -> Result<(), Fail> {
    for line in refused_lines().lines() {
        assert!(rt; stops_there(rt.alloc(), line)?, "{line}");
    }
    assert_eq!(rt; place_in(rt.alloc(), &[]), 0);
    Ok(())
}

#[test]
fn packets_cut_at_each_length_are_refused(rt: HostRuntime) -> Result<(), Fail> {
    let mut sum: u64 = 0;
    for line in packets().lines() {
        let bytes = bytes_of(rt.alloc(), line)?;
        sum = sum.wrapping_add(places_of_fronts(rt.alloc(), &bytes));
    }
    assert_eq!(rt; sum, 9985);
    Ok(())
}

#[test]
fn packets_with_a_byte_altered_spell_a_packet_or_break_there(rt: HostRuntime) -> Result<(), Fail> {
    let mut sum: u64 = 0;
    for line in packets().lines() {
        let bytes = bytes_of(rt.alloc(), line)?;
        for bits in [1, 2, 255] {
            sum = sum.wrapping_add(places_of_altered(rt.alloc(), &bytes, bits)?);
        }
    }
    // 1622 of them spell a packet
    assert_eq!(rt; sum, 1_622_005_424);
    Ok(())
}

#[test]
fn a_packet_is_written_so(rt: HostRuntime) -> Result<(), Fail> {
    let bytes = bytes_of(
        rt.alloc(),
        "0106000000010000000100000000000000010000000000000001010000000000000001",
    )?;
    assert!(rt; is_written_so(rt.alloc(), &reply(), &bytes)?);
    Ok(())
}

// An entry of client 2.
fn entry() -> Entry
    ensures { IsEntry result }
{
    Entry {
        client: ClientId(2),
        seq: 3,
        command: Command::Release(EventId(9)),
    }
}

// A reply, an entry, and another reply, one behind the other.
fn three(alloc: Global) -> Result<Vec<u8>, NoMemory> {
    let mut out = Vec::new(alloc);
    put_reply(&mut out, &Reply::Count(7))?;
    put_entry(&mut out, &entry())?;
    put_reply(&mut out, &Reply::Unknown(0))?;
    Ok(out)
}

// The place behind the reply that stands here, 1,000 more where it is a count of seven; and a refusal's place, 10,000
// more.
fn place_behind_reply(alloc: Global, bytes: &[u8], at: usize) -> usize
    requires { at ≤ length bytes.now }
{
    match reply_at(alloc, bytes, at) {
        Ok((Reply::Count(7), place)) => place.wrapping_add(1_000),
        Ok((_, place)) => place,
        Err(WireError::Refused { at }) => at.wrapping_add(10_000),
        Err(WireError::NoMemory) => 100_000,
    }
}

// The same of an entry, 1,000 more where it is client 2's third command.
fn place_behind_entry(alloc: Global, bytes: &[u8], at: usize) -> usize
    requires { at ≤ length bytes.now }
{
    match entry_at(alloc, bytes, at) {
        Ok((entry, place)) if entry.client == ClientId(2) && entry.seq == 3 => place.wrapping_add(
            1_000,
        ),
        Ok((_, place)) => place,
        Err(WireError::Refused { at }) => at.wrapping_add(10_000),
        Err(WireError::NoMemory) => 100_000,
    }
}

#[test]
fn replies_stand_at_places(rt: HostRuntime) -> Result<(), Fail> {
    let bytes = three(rt.alloc())?;
    assert!(rt; bytes.len() == 35);
    for (at, place) in [(0, 1_009), (30, 35), (35, 10_035)] {
        assert_eq!(rt; place_behind_reply(rt.alloc(), &bytes, at), place, "{at}");
    }
    Ok(())
}

#[test]
fn entries_stand_at_places(rt: HostRuntime) -> Result<(), Fail> {
    let bytes = three(rt.alloc())?;
    assert!(rt; bytes.len() == 35);
    for (at, place) in [(9, 1_030), (31, 10_031)] {
        assert_eq!(rt; place_behind_entry(rt.alloc(), &bytes, at), place, "{at}");
    }
    Ok(())
}
