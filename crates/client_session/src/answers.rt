//! Answers to a query: whether they can be its answers, what is told and remembered of them, and what is left.

ghost use Rattle.std.specs.Prelude.{◌≡◌, ◌≤◌, ◌<◌, ◌==◌, ◌&&◌, [], ◌∷◌, ◌++◌, not, length, IfOk, OnOk};
ghost use Rattle.kr_protocol.specs.Cache.{is_lasting};
ghost use Rattle.client_session.specs.Lookups.{told_behind, unsure_behind};
ghost use Rattle.kr_protocol.specs.Client.{may_answer, may_answer_all, is_unsure, parts_of as parts_are};
ghost use Rattle.kr_protocol.specs.Client.{unsure_of as unsure_are, remembers_all, most_remembered};

use kr_order::{Answer, Asked, EventId, NoMemory, Parts, Teller, ToldPart};
use order_cache::{Cache, Seen};
use std::alloc::Global;

// Whether an answer to this part of a query can be given to two events, which may be one.
fn may_answer(part: u8, same: bool, answer: Answer) -> bool
    ensures { result ≡ may_answer part same answer }
{
    match answer {
        Answer::Before | Answer::After | Answer::Concurrent => !same,
        Answer::Same => same,
        Answer::Unknown => true,
        Answer::Unsure => part == 1,
    }
}

// Whether there is one answer for each pair, and each can be given.
fn may_answer_all(part: u8, pairs: &[(EventId, EventId)], answers: &[Answer]) -> bool
    ensures { result ≡ may_answer_all part pairs.now answers.now }
{
    if pairs.len() != answers.len() {
        return false;
    }
    for (i, pair) in pairs.iter().enumerate() {
        if !may_answer(part, pair.0.0 == pair.1.0, answers[i]) {
            return false;
        }
    }
    true
}

/// Whether answers can be those of a query, where its number and part are what is open.
pub fn fits(current: bool, part: u8, pairs: &[(EventId, EventId)], answers: &[Answer]) -> bool
    ensures { result ≡ (current && may_answer_all part pairs.now answers.now) }
{
    current && may_answer_all(part, pairs, answers)
}

// Whether the answer can never change.
fn is_lasting(a: EventId, b: EventId, answer: Answer) -> bool
    ensures { result ≡ is_lasting a.0 b.0 answer }
{
    match answer {
        Answer::Before | Answer::After => a.0 != b.0,
        Answer::Same => a.0 == b.0,
        Answer::Concurrent | Answer::Unknown | Answer::Unsure => false,
    }
}

// Whether a server was unsure.
fn is_unsure(answer: Answer) -> bool
    ensures { result ≡ is_unsure answer }
{
    matches!(answer, Answer::Unsure)
}

/// Puts a pair at the end of a list that has room for it.
pub fn leave(left: &mut Asked, pair: (EventId, EventId)) -> Result<(), NoMemory>
    requires { length left.old < 32 }
    ensures { OnOk result (left.new ≡ left.old ++ pair ∷ []) }
{
    match left.push(pair) {
        Ok(()) => Ok(()),
        Err(_) => Err(NoMemory),
    }
}

// Tells of a pair, where it was answered for sure.
fn tell(
    parts: &mut Parts,
    q: u64,
    entry: u64,
    by: Teller,
    pair: (EventId, EventId),
    answer: Answer,
) -> Result<(), NoMemory>
    ensures { OnOk result (parts.new ≡ told_behind parts.old q entry by pair answer) }
{
    if is_unsure(answer) {
        return Ok(());
    }
    parts.push(ToldPart {
        q,
        a: pair.0,
        b: pair.1,
        answer,
        entry,
        by,
    })
}

// Leaves a pair, where it was not.
fn leave_unsure(left: &mut Asked, pair: (EventId, EventId), answer: Answer) -> Result<(), NoMemory>
    requires { length left.old < 32 }
    ensures { OnOk result (left.new ≡ unsure_behind left.old pair answer) }
{
    if is_unsure(answer) {
        leave(left, pair)
    } else {
        Ok(())
    }
}

/// What is told of each pair that was answered for sure, in their order.
#[tactic(auto, using(crate::proofs::AnswerLemmas::parts_next))]
pub fn parts_of(
    alloc: Global,
    q: u64,
    entry: u64,
    by: Teller,
    pairs: &[(EventId, EventId)],
    answers: &[Answer],
) -> Result<Parts, NoMemory>
    requires { length pairs.now ≡ length answers.now }
    ensures { IfOk result (λ parts. parts ≡ parts_are q entry by pairs.now answers.now) }
{
    let mut parts = Parts::new(alloc);
    for (i, pair) in pairs.iter().enumerate() {
        tell(&mut parts, q, entry, by, *pair, answers[i])?;
    }
    Ok(parts)
}

/// The pairs that were not.
#[tactic(auto, using(crate::proofs::AnswerLemmas::unsure_next, crate::proofs::AnswerLemmas::unsure_few))]
pub fn unsure_of(
    alloc: Global,
    pairs: &[(EventId, EventId)],
    answers: &[Answer],
) -> Result<Asked, NoMemory>
    requires same { length pairs.now ≡ length answers.now }
    requires few { length pairs.now ≤ 32 }
    ensures { IfOk result (λ left. left ≡ unsure_are pairs.now answers.now) }
{
    let mut left = Asked::new(alloc);
    for (i, pair) in pairs.iter().enumerate() {
        leave_unsure(&mut left, *pair, answers[i])?;
    }
    Ok(left)
}

/// Puts each answer that can never change into the cache.
pub fn remember_all(
    cache: &mut Cache,
    entry: u64,
    pairs: &[(EventId, EventId)],
    answers: &[Answer],
) -> Result<(), NoMemory>
    requires same { length pairs.now ≡ length answers.now }
    requires capacity { cache.old.capacity ≡ most_remembered }
    ensures items { OnOk result (cache.new.items ≡ remembers_all cache.old.items entry pairs.now answers.now) }
    ensures capacity { cache.new.capacity ≡ most_remembered }
{
    for (i, pair) in pairs.iter().enumerate() {
        let answer = answers[i];
        if is_lasting(pair.0, pair.1, answer) {
            cache.put(pair.0, pair.1, Seen { answer, entry })?;
        }
    }
    Ok(())
}
