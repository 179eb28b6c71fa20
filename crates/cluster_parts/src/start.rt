//! The nodes that a cluster begins with.

ghost use Rattle.std.specs.Prelude.{◌≡◌, map, false, IfOk};
ghost use Rattle.kr_order.specs.Numbers.{numbers_to};
ghost use Rattle.kr_protocol.specs.Server.{founder};
ghost use Rattle.kr_protocol.specs.Client.{new_client};

use chain_server::Server;
use client_session::Client;
use kr_order::{ClientId, Copied, NoMemory, ServerId, View};
use order_state::PlainBoard;
use std::alloc::Global;

/// A mark for each of so many servers, of which none has stopped.
pub fn running(alloc: Global, servers: u32) -> Result<Vec<bool>, NoMemory>
    ensures { IfOk result (λ marks. marks.items ≡ map (λ n. false) (numbers_to servers)) }
{
    let mut marks = Vec::new(alloc);
    for i in 0..servers {
        marks.push(false)?;
    }
    Ok(marks)
}

/// So many servers, each with nothing in its log, which have adopted the view.
pub fn founders(
    alloc: Global,
    view: &View,
    servers: u32,
) -> Result<Vec<Server<PlainBoard>>, NoMemory>
    ensures { IfOk result
        (λ nodes. nodes.items ≡ map (λ n. record { server = founder view.now (record { 0 = n }); failed = false }) (numbers_to servers)) }
{
    let mut nodes = Vec::new(alloc);
    for i in 0..servers {
        let view = view.copy(alloc)?;
        nodes.push(Server::founder(alloc, ServerId(i + 1), view, PlainBoard::new(alloc)))?;
    }
    Ok(nodes)
}

/// So many clients that have begun nothing, and know the view.
pub fn callers(alloc: Global, view: &View, clients: u32) -> Result<Vec<Client>, NoMemory>
    ensures { IfOk result
        (λ nodes. nodes.items
        ≡ map (λ n. record { client = new_client view.now (record { 0 = n }); failed = false }) (numbers_to clients)) }
{
    let mut nodes = Vec::new(alloc);
    for i in 0..clients {
        let known = view.copy(alloc)?;
        nodes.push(Client::new(alloc, ClientId(i + 1), known)?)?;
    }
    Ok(nodes)
}
