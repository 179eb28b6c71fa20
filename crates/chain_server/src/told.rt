//! What is told to the queries that wait.

ghost use Rattle.std.specs.Prelude.{◌≡◌, ◌<◌, false, length, map, IfOk, OnErr};
ghost use Rattle.kr_order.specs.Answer.{partial};
ghost use Rattle.kr_order.specs.View.{is_tail};
ghost use Rattle.kr_protocol.specs.Server.{viewed, is_for_tail_alone, told_by, answered, worked_off};
ghost use Rattle.query_worker.specs.Told.{told_after};
ghost use Rattle.chain_server.specs.Parts.{view_packets};

use kr_order::{
    Answer, Answers, ClientId, Copied, Message, NoMemory, Node, Packet, Packets, Query, ServerId,
    Told, View,
};
use order_state::Board;
use std::alloc::Global;
use std::thread::Threads;

// The answer of a server that may not have the newest entries: it is sure of what stays so.
fn partial(answer: Answer) -> Answer
    ensures { result ≡ partial answer }
{
    match answer {
        Answer::Before => Answer::Before,
        Answer::After => Answer::After,
        Answer::Same => Answer::Same,
        Answer::Concurrent | Answer::Unknown | Answer::Unsure => Answer::Unsure,
    }
}

// Such a server's answers.
fn partials(alloc: Global, answers: &[Answer]) -> Result<Answers, NoMemory>
    ensures { IfOk result (λ partials. partials ≡ map partial answers.now) }
{
    let mut partials = Answers::new(alloc);
    for answer in answers {
        partials.push(partial(*answer))?;
    }
    Ok(partials)
}

// The answers of the tail, or of another server.
fn told_by(alloc: Global, tail: bool, answers: &Answers) -> Result<Answers, NoMemory>
    ensures { IfOk result (λ told. told ≡ told_by tail answers.now) }
{
    if tail {
        answers.copy()
    } else {
        partials(alloc, answers.as_slice())
    }
}

/// Whether only the tail answers this part of a query, and this server is another.
pub fn is_for_tail(tail: bool, part: u8) -> bool
    ensures { result ≡ is_for_tail_alone tail part }
{
    part == 2 && !tail
}

// The view of a server, for the client of a query.
fn refer(
    alloc: Global,
    id: ServerId,
    view: &View,
    client: ClientId,
    q: u64,
    part: u8,
) -> Result<Packet, NoMemory>
    ensures { IfOk result
        (λ packet. packet ≡ record { from = Node.Server id; to = Node.Client client; message = Message.Refer q part view.now }) }
{
    let view = view.copy(alloc)?;
    Ok(Packet {
        from: Node::Server(id),
        to: Node::Client(client),
        message: Message::Refer { q, part, view },
    })
}

/// The same of the view that a server has adopted, if it has one.
pub fn referrals(
    alloc: Global,
    id: ServerId,
    view: &Option<View>,
    client: ClientId,
    q: u64,
    part: u8,
) -> Result<Packets, NoMemory>
    ensures { IfOk result (λ packets. packets ≡ view_packets id view.now client q part) }
{
    let mut packets = Packets::new(alloc);
    let Some(view) = view else {
        return Ok(packets);
    };
    packets.push(refer(alloc, id, view, client, q, part)?)?;
    Ok(packets)
}

// The packet with the answers to a query.
fn answer(
    alloc: Global,
    id: ServerId,
    tail: bool,
    query: &Query,
    told: &Told,
) -> Result<Packet, NoMemory>
    ensures { IfOk result
        (λ packet. packet ≡ record {
          from = Node.Server id;
          to = Node.Client query.now.client;
          message = Message.Answered query.now.q query.now.part
              (record { entry = told.now.entry; answers = told_by tail told.now.answers });
        }) }
{
    let answers = told_by(alloc, tail, &told.answers)?;
    Ok(Packet {
        from: Node::Server(id),
        to: Node::Client(query.client),
        message: Message::Answered {
            q: query.q,
            part: query.part,
            told: Told {
                entry: told.entry,
                answers,
            },
        },
    })
}

// What a query that waits is told, where these are the answers to it.
fn packet_of(
    alloc: Global,
    id: ServerId,
    view: &Option<View>,
    query: &Query,
    told: &Told,
) -> Result<Packet, NoMemory>
    ensures { (history : _) → told.now ≡ told_after history query.now →
        IfOk result (λ packet. packet ≡ worked_off id view.now (viewed false is_tail view.now id) (length history) history query.now) }
{
    let Some(view) = view else {
        return answer(alloc, id, false, query, told);
    };
    let tail = view.is_tail(id);
    if is_for_tail(tail, query.part) {
        refer(alloc, id, view, query.client, query.q, query.part)
    } else {
        answer(alloc, id, tail, query, told)
    }
}

/// What these queries are told by a server that has adopted this view, from what its board has applied.
pub fn work_packets<B: Board, R: Threads + Sync>(
    rt: &R,
    alloc: Global,
    id: ServerId,
    view: &Option<View>,
    board: &B,
    waiting: &[Query],
    workers: u32,
) -> Result<Packets, NoMemory>
    ensures err { OnErr result (0 < length waiting.now) }
    ensures packets { IfOk result (λ packets. packets ≡
        map (worked_off id view.now (viewed false is_tail view.now id) (length (B.stands board.now)) (B.stands board.now)) waiting.now) }
{
    let told = board.all(rt, waiting, workers)?;
    let mut packets = Packets::new(alloc);
    for i in 0..waiting.len() {
        packets.push(packet_of(alloc, id, view, &waiting[i], &told[i])?)?;
    }
    Ok(packets)
}
