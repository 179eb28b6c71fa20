//! Outcomes, replies and answers.

ghost use Rattle.std.specs.Prelude.{◌≡◌, ◌++◌, OnOk};
ghost use Rattle.kr_wire.specs.Valid.{IsReply};
ghost use Rattle.kr_wire.specs.Reading.{Gives, outcome_of, answer_of, reply_by, reply_at};
ghost use Rattle.kr_wire.specs.Taking.{reply_by_takes, reply_takes};
ghost use Rattle.kr_wire.specs.Spelling.{outcome_number, answer_number, reply_bytes};

use crate::fields::{byte_in, positive, put_1, put_4, put_8, u32_at, u64_at};
use crate::items::{Spelt, listed_at, put_counted};
use crate::stop::FieldError;
use kr_order::{Answer, EventId, NoMemory, Outcome, Reply};
use std::alloc::Global;

// The outcome with this number, from 1 to 3.
fn outcome_of(number: u8) -> Outcome
    ensures { result ≡ outcome_of number }
{
    match number {
        1 => Outcome::Kept,
        2 => Outcome::Reversed,
        _ => Outcome::Same,
    }
}

// Its number.
fn outcome_number(outcome: Outcome) -> u8
    ensures { result ≡ outcome_number outcome }
{
    match outcome {
        Outcome::Kept => 1,
        Outcome::Reversed => 2,
        Outcome::Same => 3,
    }
}

impl Spelt for Outcome {
    ghost use Rattle.kr_wire.specs.Spelling.{outcome_bytes};
    ghost use Rattle.kr_wire.specs.Reading.{outcome_at};
    ghost use Rattle.kr_wire.specs.Taking.{never};

    ghost text = { outcome_bytes };

    ghost reading = { outcome_at };

    ghost taking = { never };

    #[tactic(auto, unfolding(crate::specs::Reading::outcome_at))]
    fn read(_alloc: Global, bytes: &[u8]) -> Result<(Self, &[u8]), FieldError> {
        let (number, rest) = byte_in(1, 3, bytes)?;
        Ok((outcome_of(number), rest))
    }

    fn put(&self, out: &mut Vec<u8>) -> Result<(), NoMemory> {
        put_1(out, outcome_number(*self))
    }
}

// The answer with this number, from 1 to 6.
fn answer_of(number: u8) -> Answer
    ensures { result ≡ answer_of number }
{
    match number {
        1 => Answer::Before,
        2 => Answer::After,
        3 => Answer::Same,
        4 => Answer::Concurrent,
        5 => Answer::Unknown,
        _ => Answer::Unsure,
    }
}

// Its number.
fn answer_number(answer: Answer) -> u8
    ensures { result ≡ answer_number answer }
{
    match answer {
        Answer::Before => 1,
        Answer::After => 2,
        Answer::Same => 3,
        Answer::Concurrent => 4,
        Answer::Unknown => 5,
        Answer::Unsure => 6,
    }
}

impl Spelt for Answer {
    ghost use Rattle.kr_wire.specs.Spelling.{answer_bytes};
    ghost use Rattle.kr_wire.specs.Reading.{answer_at};
    ghost use Rattle.kr_wire.specs.Taking.{never};

    ghost text = { answer_bytes };

    ghost reading = { answer_at };

    ghost taking = { never };

    #[tactic(auto, unfolding(crate::specs::Reading::answer_at))]
    fn read(_alloc: Global, bytes: &[u8]) -> Result<(Self, &[u8]), FieldError> {
        let (number, rest) = byte_in(1, 6, bytes)?;
        Ok((answer_of(number), rest))
    }

    fn put(&self, out: &mut Vec<u8>) -> Result<(), NoMemory> {
        put_1(out, answer_number(*self))
    }
}

// The reply that follows its number, from 1 to 5, and what follows it.
#[tactic(auto, unfolding(crate::specs::Reading::reply_by, crate::specs::Taking::reply_by_takes))]
fn reply_by(alloc: Global, number: u8, bytes: &[u8]) -> Result<(Reply, &[u8]), FieldError>
    ensures { Gives (reply_by_takes number bytes.now) (λ read. (read.0, read.1.now)) result (reply_by number bytes.now) }
{
    match number {
        1 => {
            let (event, rest) = positive(bytes)?;
            Ok((Reply::Created(EventId(event)), rest))
        }
        2 => {
            let (outcomes, rest) = listed_at(alloc, 0, 32, bytes)?;
            Ok((Reply::Assigned(outcomes), rest))
        }
        3 => {
            let (count, rest) = u64_at(bytes)?;
            Ok((Reply::Count(count), rest))
        }
        4 => {
            let (index, rest) = u32_at(bytes)?;
            Ok((Reply::Unknown(index), rest))
        }
        _ => {
            let (index, rest) = u32_at(bytes)?;
            Ok((Reply::Contradicts(index), rest))
        }
    }
}

// The reply that the front of the bytes spells, and what follows.
#[tactic(auto, unfolding(crate::specs::Reading::reply_at, crate::specs::Taking::reply_takes))]
pub(crate) fn reply_from(alloc: Global, bytes: &[u8]) -> Result<(Reply, &[u8]), FieldError>
    ensures { Gives (reply_takes bytes.now) (λ read. (read.0, read.1.now)) result (reply_at bytes.now) }
{
    let (number, rest) = byte_in(1, 5, bytes)?;
    reply_by(alloc, number, rest)
}

// Puts the reply's spelling behind what is there.
pub(crate) fn add_reply(out: &mut Vec<u8>, reply: &Reply) -> Result<(), NoMemory>
    requires { IsReply reply.now }
    ensures { OnOk result (out.new.items ≡ out.old.items ++ reply_bytes reply.now) }
{
    match reply {
        Reply::Created(event) => {
            put_1(out, 1)?;
            put_8(out, event.0)
        }
        Reply::Assigned(outcomes) => {
            put_1(out, 2)?;
            put_counted(out, outcomes.as_slice())
        }
        Reply::Count(count) => {
            put_1(out, 3)?;
            put_8(out, *count)
        }
        Reply::Unknown(index) => {
            put_1(out, 4)?;
            put_4(out, *index)
        }
        Reply::Contradicts(index) => {
            put_1(out, 5)?;
            put_4(out, *index)
        }
    }
}
