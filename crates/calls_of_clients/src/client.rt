//! Each call of a client that may want memory, where memory suffices. What clients do is shown by the runs in rows/.

ghost use Rattle.std.specs.Prelude.{◌≡◌, IfOk};

use client_session::*;
use kr_order::{
    Asked, ClientId, Command, EventId, Message, NoMemory, Node, Packet, Placed, PushStop, Reply,
    ServerId, Servers, View,
};
use std::alloc::Global;
use std::test::Fail;

// The view of one server.
fn view(alloc: Global, number: u64) -> Result<View, NoMemory> {
    let mut chain = Servers::new(alloc);
    chain.push(ServerId(1))?;
    Ok(View {
        number,
        chain,
        joiner: None,
    })
}

// A client that has begun nothing.
fn client(alloc: Global) -> Result<Client, NoMemory>
    ensures seq { IfOk result (λ client. client.client.seq ≡ 0) }
    ensures q { IfOk result (λ client. client.client.q ≡ 0) }
{
    Client::new(alloc, ClientId(7), view(alloc, 1)?)
}

// A client that has begun a create.
fn caller(alloc: Global) -> Result<Client, CallStop> {
    let mut client = client(alloc)?;
    let _ = client.begin(Command::Create)?;
    Ok(client)
}

// One pair of events.
fn pairs(alloc: Global) -> Result<Asked, PushStop> {
    let mut pairs = Asked::new(alloc);
    pairs.push((EventId(1), EventId(2)))?;
    Ok(pairs)
}

// The reply to the create.
fn reply() -> Packet {
    let placed = Placed {
        place: 4,
        reply: Reply::Created(EventId(1)),
    };
    Packet {
        from: Node::Server(ServerId(1)),
        to: Node::Client(ClientId(7)),
        message: Message::Replied { seq: 1, placed },
    }
}

// How many packets a query brings.
fn sent_for(alloc: Global, pairs: &Asked) -> Result<usize, CallStop> {
    Ok(client(alloc)?.ask(pairs, ServerId(1))?.packets.len())
}

// Whether the call is tried again at this server.
fn goes_to(client: &Client, server: ServerId) -> Result<bool, RetryStop> {
    Ok(client.retry(server)?.to == Node::Server(server))
}

// Whether the call is still open after this packet.
fn is_open_after(mut client: Client, packet: &Packet) -> Result<bool, NoMemory> {
    let _ = client.take(packet)?;
    Ok(client.is_busy())
}

// The number of the view that the client knows then.
fn known_after(mut client: Client, view: &View) -> Result<u64, NoMemory> {
    client.learn(view)?;
    Ok(client.known().number)
}

#[test]
fn a_command_is_open_once_it_is_begun(rt: HostRuntime) -> Result<(), Fail> {
    assert!(rt; caller(rt.alloc())?.has_command());
    Ok(())
}

#[test]
fn a_query_is_sent(rt: HostRuntime) -> Result<(), Fail> {
    assert!(rt; sent_for(rt.alloc(), &pairs(rt.alloc())?)? == 1);
    Ok(())
}

#[test]
fn a_call_is_tried_again_at_any_server(rt: HostRuntime) -> Result<(), Fail> {
    assert!(rt; goes_to(&caller(rt.alloc())?, ServerId(2))?);
    Ok(())
}

#[test]
fn a_reply_closes_the_call(rt: HostRuntime) -> Result<(), Fail> {
    assert!(rt; !is_open_after(caller(rt.alloc())?, &reply())?);
    Ok(())
}

#[test]
fn a_newer_view_is_learned(rt: HostRuntime) -> Result<(), Fail> {
    assert!(rt; known_after(client(rt.alloc())?, &view(rt.alloc(), 2)?)? == 2);
    Ok(())
}
