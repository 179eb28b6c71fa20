//! One worker answers some queries, and what it found for one is told to the next.

ghost use Rattle.std.specs.Prelude.{◌≡◌, ◌+◌, ◌*◌, ◌<◌, ◌≤◌, [], ◌∷◌, None, map, IfOk, OnOk};
ghost use Rattle.kr_order.specs.Answer.{answer_to, answers_after};
ghost use Rattle.reach.specs.Search.{numbered};
ghost use Rattle.query_worker.specs.Known.{number_of, known_of, AreAnswers, Learns, KnowsAlso, IsWithin};
ghost use Rattle.query_worker.specs.Told.{told_after, count_asked};

use kr_order::{Answer, Answers, EventId, NoMemory, Query, Steps, Told};
use reach::{Asks, Scratch};
use std::alloc::Global;
use std::collections::HashMap;
use std::marker::Brand;
use std::sync::ledger::{Blank, Ledger};

// The answers that were found, by the numbers of the two events.
type Known = HashMap<(u64, u64), Answer>;

// The answer that is known of the pair.
fn recall(known: &Known, pair: (EventId, EventId)) -> Option<Answer>
    ensures { result ≡ known_of known.now (number_of pair) }
{
    known.get(&(pair.0.0, pair.1.0)).copied()
}

// The answer is known of the pair from now on.
fn learn(known: &mut Known, pair: (EventId, EventId), answer: Answer) -> Result<(), NoMemory>
    requires { known_of known.old (number_of pair) ≡ None }
    ensures { OnOk result (Learns (number_of pair) answer known.old known.new) }
{
    known.insert((pair.0.0, pair.1.0), answer)?;
    Ok(())
}

// How the first event of the pair stands to the second. It is searched for where it is not known.
fn answer<A: Asks, L: Ledger>(
    order: &A,
    known: &mut Known,
    pair: (EventId, EventId),
    scratch: &mut Scratch,
    steps: &mut Steps<L>,
) -> Result<Answer, NoMemory>
    requires fits { A.cells order.now ≤ scratch.old }
    requires known { AreAnswers (A.history order.now) known.old }
    ensures value { IfOk result (λ answer. answer ≡ answer_to (A.history order.now) pair.0.0 pair.1.0) }
    ensures known { OnOk result (AreAnswers (A.history order.now) known.new) }
    ensures pairs { OnOk result (KnowsAlso (number_of pair ∷ []) known.old known.new) }
    ensures most { OnOk result (IsWithin (A.held order.now + A.pairs_held order.now) known.old known.new steps.old steps.new) }
    ensures room { scratch.new ≡ scratch.old }
{
    match recall(known, pair) {
        Some(answer) => Ok(answer),
        None => {
            let answer = order.answer(scratch, pair.0, pair.1, steps);
            learn(known, pair, answer)?;
            Ok(answer)
        }
    }
}

// The answers to these pairs, in their order.
fn answers<A: Asks, L: Ledger>(
    alloc: Global,
    order: &A,
    known: &mut Known,
    pairs: &[(EventId, EventId)],
    scratch: &mut Scratch,
    steps: &mut Steps<L>,
) -> Result<Answers, NoMemory>
    requires fits { A.cells order.now ≤ scratch.old }
    requires known { AreAnswers (A.history order.now) known.old }
    ensures answers { IfOk result (λ answers. answers ≡ answers_after (A.history order.now) pairs.now) }
    ensures known { OnOk result (AreAnswers (A.history order.now) known.new) }
    ensures pairs { OnOk result (KnowsAlso (numbered pairs.now) known.old known.new) }
    ensures most { OnOk result (IsWithin (A.held order.now + A.pairs_held order.now) known.old known.new steps.old steps.new) }
    ensures room { scratch.new ≡ scratch.old }
{
    let mut answers = Answers::new(alloc);
    for pair in pairs {
        answers.push(answer(order, known, *pair, scratch, steps)?)?;
    }
    Ok(answers)
}

// What is told to these queries, in their order. Each pair is searched for once, by at most two steps for each held
// event and each held pair.
fn told<A: Asks, L: Ledger>(
    alloc: Global,
    order: &A,
    queries: &[Query],
    scratch: &mut Scratch,
    steps: &mut Steps<L>,
) -> Result<Vec<Told>, NoMemory>
    ensures told { IfOk result (λ told. told.items ≡ map (told_after (A.history order.now)) queries.now) }
    ensures most { OnOk result (steps.new
        ≤ steps.old + 2 * (A.held order.now + A.pairs_held order.now) * count_asked queries.now) }
{
    order.fit(scratch)?;
    let mut known = Known::new(alloc);
    let mut told = Vec::new(alloc);
    for query in queries {
        let pairs = query.pairs.as_slice();
        let answers = answers(alloc, order, &mut known, pairs, scratch, steps)?;
        told.push(Told {
            entry: order.entry(),
            answers,
        })?;
    }
    Ok(told)
}

// The same, by steps that nobody counts.
fn told_by<A: Asks, L: Ledger>(
    alloc: Global,
    order: &A,
    queries: &[Query],
    scratch: &mut Scratch,
    blank: Blank,
) -> Result<Vec<Told>, NoMemory>
    requires name { blank.name ≡ L.name }
    requires parts { blank.parts ≡ L.parts }
    requires some { 0 < blank.parts }
    ensures { IfOk result (λ told. told.items ≡ map (told_after (A.history order.now)) queries.now) }
{
    let mut steps = Steps::<L>::new(blank);
    told(alloc, order, queries, scratch, &mut steps)
}

/// What one worker tells to these queries, in their order. The scratch may be that of any earlier search.
pub fn told_uncounted<A: Asks>(
    alloc: Global,
    order: &A,
    queries: &[Query],
    scratch: &mut Scratch,
) -> Result<Vec<Told>, NoMemory>
    ensures { IfOk result (λ told. told.items ≡ map (told_after (A.history order.now)) queries.now) }
{
    told_by::<A, Brand>(alloc, order, queries, scratch, Blank::new(1))
}
