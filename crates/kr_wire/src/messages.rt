//! What each kind of message says.

ghost use Rattle.std.specs.Prelude.{◌≡◌, ◌++◌, false, OnOk};
ghost use Rattle.kr_wire.specs.Valid.{IsMessage, IsPlaced, IsTold, IsView};
ghost use Rattle.kr_wire.specs.Reading.{Gives, part_at, message_at};
ghost use Rattle.kr_wire.specs.Taking.{message_takes};
ghost use Rattle.kr_wire.specs.Spelling.{in_1, in_8, counted, answer_bytes, reply_bytes, view_bytes, message_number, message_fields};

use crate::commands::{command_at, put_command};
use crate::fields::{byte_in, id_above, positive, put_1, put_4, put_8, u64_at};
use crate::items::{capped_at, listed_at, put_counted};
use crate::party::MessageKind;
use crate::replies::{add_reply, reply_from};
use crate::stop::FieldError;
use crate::views::{put_view, view_at};
use kr_order::{Message, NoMemory, Placed, ServerId, Told, View};
use std::alloc::Global;

// The number of a query and of its part, and what follows.
#[tactic(auto, unfolding(crate::specs::Reading::part_at))]
fn part_at(bytes: &[u8]) -> Result<((u64, u8), &[u8]), FieldError>
    ensures { Gives false (λ read. (read.0, read.1.now)) result (part_at bytes.now) }
{
    let (q, rest) = positive(bytes)?;
    let (part, rest) = byte_in(1, 2, rest)?;
    Ok(((q, part), rest))
}

// What a message of the kind says, and what follows.
#[tactic(auto, unfolding(crate::specs::Reading::message_at, crate::specs::Taking::message_takes))]
pub(crate) fn message_at(
    alloc: Global,
    kind: MessageKind,
    bytes: &[u8],
) -> Result<(Message, &[u8]), FieldError>
    ensures { Gives (message_takes kind bytes.now) (λ read. (read.0, read.1.now)) result (message_at kind bytes.now) }
{
    match kind {
        MessageKind::Request => request_at(alloc, bytes),
        MessageKind::Append => append_at(alloc, bytes),
        MessageKind::Ack => ack_at(bytes),
        MessageKind::NewView => {
            let (view, rest) = view_at(alloc, bytes)?;
            Ok((Message::NewView { view }, rest))
        }
        MessageKind::Ask => ask_at(alloc, bytes),
        MessageKind::Replied => replied_at(alloc, bytes),
        MessageKind::Answered => answered_at(alloc, bytes),
        MessageKind::Refer => refer_at(alloc, bytes),
        MessageKind::Joined => {
            let (id, rest) = id_above(0, bytes)?;
            let joiner = ServerId(id);
            Ok((Message::Joined { joiner }, rest))
        }
    }
}

#[tactic(auto, unfolding(crate::specs::Reading::message_at, crate::specs::Taking::message_takes))]
fn request_at(alloc: Global, bytes: &[u8]) -> Result<(Message, &[u8]), FieldError>
    ensures { Gives (message_takes MessageKind.Request bytes.now)
        (λ read. (read.0, read.1.now)) result (message_at MessageKind.Request bytes.now) }
{
    let (seq, rest) = positive(bytes)?;
    let (command, rest) = command_at(alloc, rest)?;
    Ok((Message::Request { seq, command }, rest))
}

#[tactic(auto, unfolding(crate::specs::Reading::message_at, crate::specs::Taking::message_takes))]
fn append_at(alloc: Global, bytes: &[u8]) -> Result<(Message, &[u8]), FieldError>
    ensures { Gives (message_takes MessageKind.Append bytes.now)
        (λ read. (read.0, read.1.now)) result (message_at MessageKind.Append bytes.now) }
{
    let (first, rest) = positive(bytes)?;
    let (entries, rest) = listed_at(alloc, 1, 16, rest)?;
    Ok((Message::Append { first, entries }, rest))
}

#[tactic(auto, unfolding(crate::specs::Reading::message_at, crate::specs::Taking::message_takes))]
fn ack_at(bytes: &[u8]) -> Result<(Message, &[u8]), FieldError>
    ensures { Gives (message_takes MessageKind.Ack bytes.now)
        (λ read. (read.0, read.1.now)) result (message_at MessageKind.Ack bytes.now) }
{
    let (done, rest) = u64_at(bytes)?;
    let (len, rest) = u64_at(rest)?;
    Ok((Message::Ack { done, len }, rest))
}

#[tactic(auto, unfolding(crate::specs::Reading::message_at, crate::specs::Taking::message_takes))]
fn ask_at(alloc: Global, bytes: &[u8]) -> Result<(Message, &[u8]), FieldError>
    ensures { Gives (message_takes MessageKind.Ask bytes.now)
        (λ read. (read.0, read.1.now)) result (message_at MessageKind.Ask bytes.now) }
{
    let ((q, part), rest) = part_at(bytes)?;
    let (pairs, rest) = capped_at(alloc, 1, rest)?;
    Ok((Message::Ask { q, part, pairs }, rest))
}

#[tactic(auto, unfolding(crate::specs::Reading::message_at, crate::specs::Taking::message_takes))]
fn replied_at(alloc: Global, bytes: &[u8]) -> Result<(Message, &[u8]), FieldError>
    ensures { Gives (message_takes MessageKind.Replied bytes.now)
        (λ read. (read.0, read.1.now)) result (message_at MessageKind.Replied bytes.now) }
{
    let (seq, rest) = positive(bytes)?;
    let (place, rest) = positive(rest)?;
    let (reply, rest) = reply_from(alloc, rest)?;
    let placed = Placed { place, reply };
    Ok((Message::Replied { seq, placed }, rest))
}

#[tactic(auto, unfolding(crate::specs::Reading::message_at, crate::specs::Taking::message_takes))]
fn answered_at(alloc: Global, bytes: &[u8]) -> Result<(Message, &[u8]), FieldError>
    ensures { Gives (message_takes MessageKind.Answered bytes.now)
        (λ read. (read.0, read.1.now)) result (message_at MessageKind.Answered bytes.now) }
{
    let ((q, part), rest) = part_at(bytes)?;
    let (entry, rest) = u64_at(rest)?;
    let (answers, rest) = listed_at(alloc, 1, 32, rest)?;
    let told = Told { entry, answers };
    Ok((Message::Answered { q, part, told }, rest))
}

#[tactic(auto, unfolding(crate::specs::Reading::message_at, crate::specs::Taking::message_takes))]
fn refer_at(alloc: Global, bytes: &[u8]) -> Result<(Message, &[u8]), FieldError>
    ensures { Gives (message_takes MessageKind.Refer bytes.now)
        (λ read. (read.0, read.1.now)) result (message_at MessageKind.Refer bytes.now) }
{
    let ((q, part), rest) = part_at(bytes)?;
    let (view, rest) = view_at(alloc, rest)?;
    Ok((Message::Refer { q, part, view }, rest))
}

// The number of the message's kind.
pub(crate) fn message_number(message: &Message) -> u8
    ensures { result ≡ message_number message.now }
{
    match message {
        Message::Request { .. } => 1,
        Message::Append { .. } => 2,
        Message::Ack { .. } => 3,
        Message::NewView { .. } => 4,
        Message::Ask { .. } => 5,
        Message::Replied { .. } => 6,
        Message::Answered { .. } => 7,
        Message::Refer { .. } => 8,
        Message::Joined { .. } => 9,
    }
}

// Puts the number of a query and of its part behind what is there.
fn put_part(out: &mut Vec<u8>, q: u64, part: u8) -> Result<(), NoMemory>
    ensures { OnOk result (out.new.items ≡ out.old.items ++ (in_8 q ++ in_1 part)) }
{
    put_8(out, q)?;
    put_1(out, part)
}

fn put_replied(out: &mut Vec<u8>, seq: u64, placed: &Placed) -> Result<(), NoMemory>
    requires { IsPlaced placed.now }
    ensures { OnOk result (out.new.items ≡ out.old.items ++ (in_8 seq ++ in_8 placed.now.place ++ reply_bytes placed.now.reply)) }
{
    put_8(out, seq)?;
    put_8(out, placed.place)?;
    add_reply(out, &placed.reply)
}

// Puts the number of a query and of its part, and of the last entry before the answer, behind what is there.
fn put_part_at(out: &mut Vec<u8>, q: u64, part: u8, entry: u64) -> Result<(), NoMemory>
    ensures { OnOk result (out.new.items ≡ out.old.items ++ (in_8 q ++ in_1 part ++ in_8 entry)) }
{
    put_part(out, q, part)?;
    put_8(out, entry)
}

fn put_answered(out: &mut Vec<u8>, q: u64, part: u8, told: &Told) -> Result<(), NoMemory>
    requires { IsTold told.now }
    ensures { OnOk result (out.new.items ≡
        out.old.items ++ (in_8 q ++ in_1 part ++ in_8 told.now.entry ++ counted answer_bytes told.now.answers)) }
{
    put_part_at(out, q, part, told.entry)?;
    put_counted(out, told.answers.as_slice())
}

fn put_refer(out: &mut Vec<u8>, q: u64, part: u8, view: &View) -> Result<(), NoMemory>
    requires { IsView view.now }
    ensures { OnOk result (out.new.items ≡ out.old.items ++ (in_8 q ++ in_1 part ++ view_bytes view.now)) }
{
    put_part(out, q, part)?;
    put_view(out, view)
}

// Puts what the message says behind what is there.
pub(crate) fn put_message(out: &mut Vec<u8>, message: &Message) -> Result<(), NoMemory>
    requires { IsMessage message.now }
    ensures { OnOk result (out.new.items ≡ out.old.items ++ message_fields message.now) }
{
    match message {
        Message::Request { seq, command } => {
            put_8(out, *seq)?;
            put_command(out, command)
        }
        Message::Append { first, entries } => {
            put_8(out, *first)?;
            put_counted(out, entries.as_slice())
        }
        Message::Ack { done, len } => {
            put_8(out, *done)?;
            put_8(out, *len)
        }
        Message::NewView { view } => put_view(out, view),
        Message::Ask { q, part, pairs } => {
            put_part(out, *q, *part)?;
            put_counted(out, pairs.as_slice())
        }
        Message::Replied { seq, placed } => put_replied(out, *seq, placed),
        Message::Answered { q, part, told } => put_answered(out, *q, *part, told),
        Message::Refer { q, part, view } => put_refer(out, *q, *part, view),
        Message::Joined { joiner } => put_4(out, joiner.0),
    }
}
