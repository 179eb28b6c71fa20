//! Replies to clients, from what the board keeps of their last entries.

ghost use Rattle.std.specs.Prelude.{◌≡◌, ◌++◌, [], if◌then◌else◌, map, IfOk, OnOk};
ghost use Rattle.std.specs.Option.{option_to_list};
ghost use Rattle.kr_order.specs.Done.{done_of, last_of};
ghost use Rattle.kr_protocol.specs.Server.{reply_packet, lasts};
ghost use Rattle.order_state.specs.Kept.{kept_of};
ghost use Rattle.chain_server.specs.Parts.{has_seq, repeated, reply_if_last};
ghost use Rattle.chain_server.specs.Whole.{IsBackOf};

use kr_order::{ClientId, DoneEntry, Message, NoMemory, Node, Packet, Packets, Placed, ServerId};
use order_state::{Board, Kept};
use std::alloc::Global;

// The reply of the client's last entry.
fn reply_of(id: ServerId, client: ClientId, kept: Kept) -> Packet
    ensures from { result.from ≡ Node.Server id }
    ensures to { result.to ≡ Node.Client client }
    ensures message { result.message ≡ Message.Replied kept.seq (record { place = kept.place; reply = kept.reply }) }
{
    let Kept { seq, place, reply } = kept;
    Packet {
        from: Node::Server(id),
        to: Node::Client(client),
        message: Message::Replied {
            seq,
            placed: Placed { place, reply },
        },
    }
}

/// Whether this is the number of the client's last applied entry. It takes no memory.
pub fn has_seq<B: Board>(board: &B, client: ClientId, seq: u64) -> bool
    ensures { result ≡ has_seq (last_of client (done_of (B.stands board.now))) seq }
{
    match board.last_seq(client) {
        None => false,
        Some(last) => last == seq,
    }
}

/// The reply to the client's command of this number once more, where it is the client's last applied entry.
pub fn repeated<B: Board>(
    id: ServerId,
    board: &B,
    client: ClientId,
    seq: u64,
) -> Result<Option<Packet>, NoMemory>
    ensures { IfOk result (λ packet. packet ≡ repeated id (last_of client (done_of (B.stands board.now))) seq) }
{
    match board.last(client)? {
        None => Ok(None),
        Some(kept) => {
            if kept.seq == seq {
                Ok(Some(reply_of(id, client, kept)))
            } else {
                Ok(None)
            }
        }
    }
}

// The reply of the entry, where its client has no later one.
fn reply_if_last<B: Board>(
    id: ServerId,
    board: &B,
    done: &DoneEntry,
) -> Result<Option<Packet>, NoMemory>
    ensures { IfOk result (λ packet. packet ≡ reply_if_last id (last_of done.now.entry.client (done_of (B.stands board.now))) done.now) }
{
    let client = done.entry.client;
    match board.last(client)? {
        None => Ok(None),
        Some(kept) => {
            if kept.place == done.place {
                Ok(Some(reply_of(id, client, kept)))
            } else {
                Ok(None)
            }
        }
    }
}

// Puts that reply behind the packets, where there is one.
fn push_reply<B: Board>(
    id: ServerId,
    board: &B,
    done: &DoneEntry,
    packets: &mut Packets,
) -> Result<(), NoMemory>
    ensures { OnOk result
        (packets.new ≡ packets.old
        ++ option_to_list (reply_if_last id (last_of done.now.entry.client (done_of (B.stands board.now))) done.now)) }
{
    match reply_if_last(id, board, done)? {
        Some(packet) => packets.push(packet),
        None => Ok(()),
    }
}

// The replies to the clients of the newest applied entries: each client's last one is replied, places rising.
fn replies<B: Board>(
    alloc: Global,
    id: ServerId,
    board: &B,
    newest: &[DoneEntry],
) -> Result<Packets, NoMemory>
    requires { IsBackOf (done_of (B.stands board.now)) newest.now }
    ensures { IfOk result (λ packets. packets ≡ map (reply_packet id) (lasts newest.now)) }
{
    let mut packets = Packets::new(alloc);
    for done in newest {
        push_reply(id, board, done, &mut packets)?;
    }
    Ok(packets)
}

/// The packets that a server sends when these entries have been applied: the tail's replies, and none of another.
pub fn replies_of<B: Board>(
    alloc: Global,
    id: ServerId,
    tail: bool,
    board: &B,
    newest: &[DoneEntry],
) -> Result<Packets, NoMemory>
    requires { IsBackOf (done_of (B.stands board.now)) newest.now }
    ensures { IfOk result (λ packets. packets ≡ (if tail then map (reply_packet id) (lasts newest.now) else [])) }
{
    if tail {
        replies(alloc, id, board, newest)
    } else {
        Ok(Packets::new(alloc))
    }
}
