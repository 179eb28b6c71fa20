//! What is printed of a step, and of the history at the end.

ghost use Rattle.std.specs.Prelude.{◌≡◌, ◌+◌, ◌^◌, ◌<◌, ◌≤◌, ◌++◌, codes, length, Some, IfOk, OnOk};
ghost use Rattle.std.specs.Fmt.{decimal};
ghost use Rattle.kr_order.specs.Text.{client_text, node_text, teller_text, asked_word, answer_word, part_text, message_text};
ghost use Rattle.kr_order.specs.Done.{done_of};
ghost use Rattle.kr_world.specs.Step.{parts_to};
ghost use Rattle.kr_world.specs.Lines.{grown_line, told_line, told_lines, part_line, part_lines, shown_line, refused_line, packet_line};
ghost use Rattle.kr_world.specs.Lines.{packet_lines, done_lines, end_lines};
ghost use Rattle.kr_world.specs.Refusal.{refusal_word};
ghost use Rattle.cluster_parts.specs.PartsStanding.{told_in, parts_in, part_told, history_of, lines_of};

use crate::parts::{Noted, Parts, PartsTelling, Telling};
use kr_order::{
    Answer, ClientId, DoneEntry, Listed, Message, NoMemory, Node, Packet, Teller, ToldPart,
};
use kr_text::put_number;
use kr_world::{Refusal, Shown};
use script_lang::{put_answer_text, put_done, put_reply_text};
use std::alloc::Global;

/// Lines of a transcript, as bytes.
pub type Lines = Listed<u8>;

// Puts the text behind what is there.
fn put(out: &mut Vec<u8>, text: &[u8]) -> Result<(), NoMemory>
    ensures { OnOk result (out.new.items ≡ out.old.items ++ text.now) }
{
    out.extend_from_slice(text)?;
    Ok(())
}

// A word and a number.
fn put_counted(out: &mut Vec<u8>, word: &[u8], n: u64) -> Result<(), NoMemory>
    ensures { OnOk result (out.new.items ≡ out.old.items ++ (word.now ++ decimal n)) }
{
    put(out, word)?;
    put_number(out, n)
}

// A client.
fn put_client(out: &mut Vec<u8>, client: ClientId) -> Result<(), NoMemory>
    ensures { OnOk result (out.new.items ≡ out.old.items ++ client_text client) }
{
    put_counted(out, b"c", u64::from(client.0))
}

// A party to the protocol.
fn put_node(out: &mut Vec<u8>, node: Node) -> Result<(), NoMemory>
    ensures { OnOk result (out.new.items ≡ out.old.items ++ node_text node) }
{
    match node {
        Node::Manager => put(out, b"m"),
        Node::Client(client) => put_client(out, client),
        Node::Server(server) => put_counted(out, b"s", u64::from(server.0)),
    }
}

// The history has more entries than before.
fn put_grown(out: &mut Vec<u8>, before: usize, now: usize) -> Result<(), NoMemory>
    ensures { OnOk result (out.new.items ≡ out.old.items ++ grown_line before now) }
{
    if before >= now {
        return Ok(());
    }
    put_counted(out, b"grown ", now as u64)?;
    put(out, b"\n")
}

// A client was told a reply.
fn put_told(out: &mut Vec<u8>, told: &Option<Telling>) -> Result<(), NoMemory>
    ensures { OnOk result (out.new.items ≡ out.old.items ++ told_lines (told_in told.now)) }
{
    match told {
        None => Ok(()),
        Some(telling) => put_telling(out, telling),
    }
}

// Its line.
fn put_telling(out: &mut Vec<u8>, telling: &Telling) -> Result<(), NoMemory>
    ensures { OnOk result (out.new.items ≡ out.old.items ++ told_line (record { client = telling.now.client; reply = telling.now.reply })) }
{
    put(out, b"told ")?;
    put_client(out, telling.client)?;
    put_counted(out, b" ", telling.reply.seq)?;
    put_counted(out, b" at ", telling.reply.placed.place)?;
    put(out, b" ")?;
    put_reply_text(out, &telling.reply.placed.reply)?;
    put(out, b"\n")
}

// Who told a client.
fn put_teller(out: &mut Vec<u8>, by: Teller) -> Result<(), NoMemory>
    ensures { OnOk result (out.new.items ≡ out.old.items ++ teller_text by) }
{
    match by {
        Teller::Server(server) => put_counted(out, b"s", u64::from(server.0)),
        Teller::Cache => put(out, b"cache"),
    }
}

// The two events of a told part.
fn put_asked(out: &mut Vec<u8>, part: &ToldPart) -> Result<(), NoMemory>
    ensures { OnOk result (out.new.items ≡ out.old.items ++ asked_word (part.now.a, part.now.b)) }
{
    put_number(out, part.a.0)?;
    put_counted(out, b",", part.b.0)
}

// An answer; the last is never told.
fn put_answer(out: &mut Vec<u8>, answer: Answer) -> Result<(), NoMemory>
    ensures { OnOk result (out.new.items ≡ out.old.items ++ answer_word answer) }
{
    match answer {
        Answer::Unsure => put(out, b"unsure"),
        sure => put_answer_text(out, &sure),
    }
}

// What was told of a pair.
fn put_part_text(out: &mut Vec<u8>, part: &ToldPart) -> Result<(), NoMemory>
    ensures { OnOk result (out.new.items ≡ out.old.items ++ part_text part.now) }
{
    put_number(out, part.q)?;
    put(out, b" ")?;
    put_asked(out, part)?;
    put(out, b" ")?;
    put_answer(out, part.answer)?;
    put_counted(out, b" at ", part.entry)?;
    put(out, b" by ")?;
    put_teller(out, part.by)
}

// A client was told one pair of its query.
fn put_part(out: &mut Vec<u8>, client: ClientId, part: &ToldPart) -> Result<(), NoMemory>
    ensures { OnOk result (out.new.items ≡ out.old.items ++ part_line (part_told client part.now)) }
{
    put(out, b"part ")?;
    put_client(out, client)?;
    put(out, b" ")?;
    put_part_text(out, part)?;
    put(out, b"\n")
}

// A client was told pairs of its query.
fn put_parts_of(out: &mut Vec<u8>, client: ClientId, parts: &[ToldPart]) -> Result<(), NoMemory>
    ensures { OnOk result (out.new.items ≡ out.old.items ++ part_lines (parts_to client parts.now)) }
{
    for part in parts {
        put_part(out, client, part)?;
    }
    Ok(())
}

fn put_parts(out: &mut Vec<u8>, parts: &Option<PartsTelling>) -> Result<(), NoMemory>
    ensures { OnOk result (out.new.items ≡ out.old.items ++ part_lines (parts_in parts.now)) }
{
    match parts {
        None => Ok(()),
        Some(telling) => put_parts_of(out, telling.client, telling.parts.as_slice()),
    }
}

// What a server has was shown.
fn put_shown(out: &mut Vec<u8>, shown: Option<Shown>) -> Result<(), NoMemory>
    ensures { OnOk result (out.new.items ≡ out.old.items ++ shown_line shown) }
{
    match shown {
        None => Ok(()),
        Some(shown) => put_sight(out, &shown),
    }
}

// Its line.
fn put_sight(out: &mut Vec<u8>, shown: &Shown) -> Result<(), NoMemory>
    ensures { OnOk result (out.new.items ≡ out.old.items ++ shown_line (Some shown.now)) }
{
    put_counted(out, b"show s", u64::from(shown.server.0))?;
    put_counted(out, b" view ", shown.view)?;
    put_counted(out, b" log ", shown.log)?;
    put_counted(out, b" done ", shown.done)?;
    put_counted(out, b" held ", shown.held)?;
    put_counted(out, b" pairs ", shown.pairs)?;
    put_counted(out, b" waiting ", shown.waiting)?;
    put(out, b"\n")
}

// The word of a refusal.
fn word_of(why: Refusal) -> &'static [u8]
    ensures { result.now ≡ refusal_word why }
{
    match why {
        Refusal::NoSuchClient => b"NoSuchClient",
        Refusal::NoSuchServer => b"NoSuchServer",
        Refusal::NoSuchPacket => b"NoSuchPacket",
        Refusal::Stopped => b"Stopped",
        Refusal::Busy => b"Busy",
        Refusal::NothingOpen => b"NothingOpen",
        Refusal::Lost => b"Lost",
        Refusal::LastServer => b"LastServer",
        Refusal::NotStopped => b"NotStopped",
        Refusal::NotMember => b"NotMember",
        Refusal::JoinerThere => b"JoinerThere",
        Refusal::ServersSpent => b"ServersSpent",
        Refusal::BagFull => b"BagFull",
    }
}

// The step was refused.
fn put_refused(out: &mut Vec<u8>, refused: Option<Refusal>) -> Result<(), NoMemory>
    ensures { OnOk result (out.new.items ≡ out.old.items ++ refused_line refused) }
{
    match refused {
        None => Ok(()),
        Some(why) => {
            put(out, b"refused ")?;
            put(out, word_of(why))?;
            put(out, b"\n")
        }
    }
}

// A part of a query, with its number and another.
fn put_query(out: &mut Vec<u8>, word: &[u8], q: u64, part: u8, n: u64) -> Result<(), NoMemory>
    ensures { OnOk result
        (out.new.items ≡ out.old.items ++ (word.now ++ decimal q ++ codes " " ++ decimal part ++ codes " " ++ decimal n)) }
{
    put_counted(out, word, q)?;
    put_counted(out, b" ", u64::from(part))?;
    put_counted(out, b" ", n)
}

// Two numbers behind a word.
fn put_two(out: &mut Vec<u8>, word: &[u8], first: u64, second: u64) -> Result<(), NoMemory>
    ensures { OnOk result (out.new.items ≡ out.old.items ++ (word.now ++ decimal first ++ codes " " ++ decimal second)) }
{
    put_counted(out, word, first)?;
    put_counted(out, b" ", second)
}

// What a message says.
fn put_message(out: &mut Vec<u8>, message: &Message) -> Result<(), NoMemory>
    ensures { OnOk result (out.new.items ≡ out.old.items ++ message_text message.now) }
{
    match message {
        Message::Request { seq, .. } => put_counted(out, b"request ", *seq),
        Message::Append { first, entries } => put_two(
            out,
            b"append ",
            *first,
            entries.len() as u64,
        ),
        Message::Ack { done, len } => put_two(out, b"ack ", *done, *len),
        Message::NewView { view } => put_counted(out, b"view ", view.number),
        Message::Replied { seq, placed } => put_two(out, b"reply ", *seq, placed.place),
        Message::Ask { q, part, pairs } => put_query(out, b"ask ", *q, *part, pairs.len() as u64),
        Message::Answered { q, part, told } => put_query(out, b"answer ", *q, *part, told.entry),
        Message::Refer { q, part, view } => put_query(out, b"refer ", *q, *part, view.number),
        Message::Joined { joiner } => put_counted(out, b"joined ", u64::from(joiner.0)),
    }
}

// Packet k was sent.
fn put_packet(out: &mut Vec<u8>, k: u64, packet: &Packet) -> Result<(), NoMemory>
    ensures { OnOk result (out.new.items ≡ out.old.items ++ packet_line k packet.now) }
{
    put_counted(out, b"packet ", k)?;
    put(out, b" ")?;
    put_node(out, packet.from)?;
    put(out, b" ")?;
    put_node(out, packet.to)?;
    put(out, b" ")?;
    put_message(out, &packet.message)?;
    put(out, b"\n")
}

// The packets that were sent after the first `sent` ones.
fn put_packets(out: &mut Vec<u8>, sent: u64, packets: &[Packet]) -> Result<(), NoMemory>
    requires { sent + length packets.now < 2 ^ 64 }
    ensures { OnOk result (out.new.items ≡ out.old.items ++ packet_lines sent packets.now) }
{
    for (i, packet) in packets.iter().enumerate() {
        put_packet(out, sent + i as u64 + 1, packet)?;
    }
    Ok(())
}

// The entries of the history.
fn put_journal(out: &mut Vec<u8>, journal: &[DoneEntry]) -> Result<(), NoMemory>
    ensures { OnOk result (out.new.items ≡ out.old.items ++ done_lines journal.now) }
{
    for done in journal {
        put_done(out, done)?;
    }
    Ok(())
}

/// Puts the lines of a step behind what is there, given the length of the history before it.
pub fn put_step(
    out: &mut Vec<u8>,
    entries: usize,
    parts: &Parts,
    noted: &Noted,
) -> Result<(), NoMemory>
    ensures { OnOk result (out.new.items ≡ out.old.items ++ lines_of entries parts.now noted.now) }
{
    put_grown(out, entries, parts.journal.len())?;
    put_told(out, &noted.told)?;
    put_parts(out, &noted.parts)?;
    put_shown(out, noted.shown)?;
    put_refused(out, noted.refused)?;
    put_packets(out, parts.bag.before(), parts.bag.fresh())
}

/// The lines of the history, at the end.
pub fn end_lines(alloc: Global, journal: &[DoneEntry]) -> Result<Lines, NoMemory>
    requires { journal.now ≡ done_of (history_of journal.now) }
    ensures { IfOk result (λ lines. lines ≡ end_lines (history_of journal.now)) }
{
    let mut out = Vec::new(alloc);
    put_counted(&mut out, b"history ", journal.len() as u64)?;
    put(&mut out, b"\n")?;
    put_journal(&mut out, journal)?;
    put(&mut out, b"end\n")?;
    Ok(Lines::from_vec(out))
}
