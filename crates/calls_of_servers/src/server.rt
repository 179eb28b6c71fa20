//! Each call of a server that may want memory, where memory suffices. What servers do is shown by the runs in rows/.

use chain_server::*;
use kr_order::{
    ClientId, Command, Entries, Entry, Message, NoMemory, Node, Packet, ServerId, Servers, View,
};
use order_state::PlainBoard;
use std::alloc::Global;
use std::test::Fail;
use std::thread::Threads;

const HEAD: ServerId = ServerId(1);

const TAIL: ServerId = ServerId(2);

// The view of the two servers.
fn view(alloc: Global) -> Result<View, NoMemory> {
    let mut chain = Servers::new(alloc);
    chain.push(HEAD)?;
    chain.push(TAIL)?;
    Ok(View {
        number: 1,
        chain,
        joiner: None,
    })
}

// The second of them.
fn tail(alloc: Global) -> Result<Server<PlainBoard>, NoMemory> {
    let board = PlainBoard::new(alloc);
    Ok(Server::founder(alloc, TAIL, view(alloc)?, board))
}

// The first one's packet with a client's create.
fn append(alloc: Global) -> Result<Packet, NoMemory> {
    let mut entries = Entries::new(alloc);
    entries.push(Entry {
        client: ClientId(7),
        seq: 1,
        command: Command::Create,
    })?;
    Ok(Packet {
        from: Node::Server(HEAD),
        to: Node::Server(TAIL),
        message: Message::Append { first: 1, entries },
    })
}

// How many packets the create brings.
fn sent_for(mut server: Server<PlainBoard>, packet: &Packet) -> Result<usize, NoMemory> {
    Ok(server.take(packet)?.packets.len())
}

// How many packets a tick brings.
fn sent_at_tick(mut server: Server<PlainBoard>) -> Result<usize, NoMemory> {
    Ok(server.tick()?.packets.len())
}

// How many packets work brings.
fn sent_by_work<R: Threads + Sync>(
    rt: &R,
    mut server: Server<PlainBoard>,
) -> Result<usize, NoMemory> {
    Ok(server.work(rt, 1)?.packets.len())
}

#[test]
fn a_reply_and_an_acknowledgement_are_sent_for_an_entry(rt: HostRuntime) -> Result<(), Fail> {
    let packet = append(rt.alloc())?;
    assert!(rt; sent_for(tail(rt.alloc())?, &packet)? == 2);
    Ok(())
}

#[test]
fn an_acknowledgement_is_sent_at_a_tick(rt: HostRuntime) -> Result<(), Fail> {
    assert!(rt; sent_at_tick(tail(rt.alloc())?)? == 1);
    Ok(())
}

#[test]
fn nothing_is_sent_where_no_query_waits(rt: HostRuntime) -> Result<(), Fail> {
    assert!(rt; sent_by_work(&rt, tail(rt.alloc())?)? == 0);
    Ok(())
}
