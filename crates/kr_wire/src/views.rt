//! Views and nodes.

ghost use Rattle.std.specs.Prelude.{◌≡◌, ◌++◌, false, IfOk, OnOk};
ghost use Rattle.kr_wire.specs.Valid.{IsView, last_id};
ghost use Rattle.std.specs.Int.{w32};
ghost use Rattle.kr_wire.specs.Reading.{Gives, above, rising_at, chain_at, joiner_at, view_at, node_at, node_of};
ghost use Rattle.kr_wire.specs.Taking.{never, items_take, chain_takes, view_takes};
ghost use Rattle.kr_wire.specs.Spelling.{joiner_number, node_number, view_bytes};

use crate::fields::{byte_in, id_above, positive, put_4, put_8, u32_at};
use crate::items::{Spelt, put_counted};
use crate::party::Party;
use crate::stop::FieldError;
use kr_order::{ClientId, NoMemory, Node, ServerId, Servers, View};
use std::alloc::Global;

impl Spelt for ServerId {
    ghost use Rattle.std.specs.Int.{w32};
    ghost use Rattle.kr_wire.specs.Spelling.{server_bytes};
    ghost use Rattle.kr_wire.specs.Reading.{above, made, server_of};
    ghost use Rattle.kr_wire.specs.Taking.{never};

    ghost text = { server_bytes };

    ghost reading = { made server_of (above w32 0) };

    ghost taking = { never };

    fn read(_alloc: Global, bytes: &[u8]) -> Result<(Self, &[u8]), FieldError> {
        let (id, rest) = id_above(0, bytes)?;
        Ok((ServerId(id), rest))
    }

    fn put(&self, out: &mut Vec<u8>) -> Result<(), NoMemory> {
        put_4(out, self.0)
    }
}

// So many ids, each greater than the one before it, the last of them, and what follows.
fn rising_at(
    alloc: Global,
    count: u8,
    bytes: &[u8],
) -> Result<(Vec<ServerId>, u32, &[u8]), FieldError>
    ensures value { Gives (items_take (above w32 0) never count bytes.now)
        (λ read. (read.0.items, read.2.now)) result (rising_at count 0 bytes.now) }
    ensures last { IfOk result (λ read. read.1 ≡ last_id 0 read.0.items) }
{
    let mut ids = Vec::new(alloc);
    let mut last = 0;
    let mut rest = bytes;
    for _ in 0..count {
        let (id, after) = id_above(last, rest)?;
        ids.push(ServerId(id))?;
        last = id;
        rest = after;
    }
    Ok((ids, last, rest))
}

// The chain that the front of the bytes spells, its last id, and what follows.
#[tactic(auto, unfolding(crate::specs::Reading::chain_at, crate::specs::Taking::chain_takes))]
fn chain_at(alloc: Global, bytes: &[u8]) -> Result<(Servers, u32, &[u8]), FieldError>
    ensures value { Gives (chain_takes bytes.now) (λ read. (read.0, read.2.now)) result (chain_at bytes.now) }
    ensures last { IfOk result (λ read. read.1 ≡ last_id 0 read.0) }
{
    let (count, rest) = byte_in(1, 64, bytes)?;
    let (ids, last, rest) = rising_at(alloc, count, rest)?;
    Ok((Servers::from_vec(ids), last, rest))
}

// The server that is added behind a chain with this last id, where there is one, and what follows.
#[tactic(auto, unfolding(crate::specs::Reading::joiner_at))]
fn joiner_at(last: u32, bytes: &[u8]) -> Result<(Option<ServerId>, &[u8]), FieldError>
    ensures { Gives false (λ read. (read.0, read.1.now)) result (joiner_at last bytes.now) }
{
    let (id, rest) = u32_at(bytes)?;
    if id == 0 {
        Ok((None, rest))
    } else if last < id {
        Ok((Some(ServerId(id)), rest))
    } else {
        Err(FieldError::Broken { left: bytes.len() })
    }
}

// The view that the front of the bytes spells, and what follows.
#[tactic(auto, unfolding(crate::specs::Reading::view_at, crate::specs::Taking::view_takes))]
pub(crate) fn view_at(alloc: Global, bytes: &[u8]) -> Result<(View, &[u8]), FieldError>
    ensures { Gives (view_takes bytes.now) (λ read. (read.0, read.1.now)) result (view_at bytes.now) }
{
    let (number, rest) = positive(bytes)?;
    let (chain, last, rest) = chain_at(alloc, rest)?;
    let (joiner, rest) = joiner_at(last, rest)?;
    let view = View {
        number,
        chain,
        joiner,
    };
    Ok((view, rest))
}

// The number that stands for the server that is being added.
fn joiner_number(joiner: Option<ServerId>) -> u32
    ensures { result ≡ joiner_number joiner }
{
    match joiner {
        Some(joiner) => joiner.0,
        None => 0,
    }
}

// Puts the view's spelling behind what is there.
pub(crate) fn put_view(out: &mut Vec<u8>, view: &View) -> Result<(), NoMemory>
    requires { IsView view.now }
    ensures { OnOk result (out.new.items ≡ out.old.items ++ view_bytes view.now) }
{
    put_8(out, view.number)?;
    put_counted(out, view.chain.as_slice())?;
    put_4(out, joiner_number(view.joiner))
}

// The node of this party that the front of the bytes spells, and what follows.
#[tactic(auto, unfolding(crate::specs::Reading::node_at))]
pub(crate) fn node_at(party: Party, bytes: &[u8]) -> Result<(Node, &[u8]), FieldError>
    ensures { Gives false (λ read. (read.0, read.1.now)) result (node_at party bytes.now) }
{
    match party {
        Party::Manager => {
            let (id, rest) = u32_at(bytes)?;
            if id == 0 {
                Ok((Node::Manager, rest))
            } else {
                Err(FieldError::Broken { left: bytes.len() })
            }
        }
        Party::Client => {
            let (id, rest) = id_above(0, bytes)?;
            Ok((Node::Client(ClientId(id)), rest))
        }
        Party::Server => {
            let (id, rest) = id_above(0, bytes)?;
            Ok((Node::Server(ServerId(id)), rest))
        }
    }
}

// The number that stands for the node.
pub(crate) fn node_number(node: Node) -> u32
    ensures { result ≡ node_number node }
{
    match node {
        Node::Manager => 0,
        Node::Client(client) => client.0,
        Node::Server(server) => server.0,
    }
}

// The node of this party with this number.
pub(crate) fn node_of(party: Party, number: u32) -> Node
    ensures { result ≡ node_of party number }
{
    match party {
        Party::Manager => Node::Manager,
        Party::Client => Node::Client(ClientId(number)),
        Party::Server => Node::Server(ServerId(number)),
    }
}
