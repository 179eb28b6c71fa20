//! The text of a run on threads.

ghost use Rattle.std.specs.Prelude.{◌≡◌, ◌+◌, ◌^◌, ◌<◌, ◌++◌, All, flat_map, OnOk, IfOk};
ghost use Rattle.kr_order.specs.Done.{done_of};
ghost use Rattle.script_lang.specs.Line.{line};
ghost use Rattle.cluster_parts.specs.PartsStanding.{history_of};
ghost use Rattle.live_driver.specs.Text.{answer_words, told_text, client_lines, clients_lines, live_text, IsSure, IsSureOf, IsSureOfAll};
ghost use Rattle.live_driver.specs.Text.{chain_text, node_lines, seen_text, AreSureTold};

use cluster_parts::end_lines;
use kr_order::{Answer, NoMemory, Told};
use kr_text::put_number;
use live_chain::ChainRun;
use live_service::{CallAnswers, LiveAnswer, LiveRun};
use script_lang::{put_answer_text, put_reply_text};
use std::alloc::Global;

/// The text: for each client, in the order of their numbers, the line `client C` and a line for each of its calls,
/// `placed PLACE REPLY` or `seen ENTRY ANSWER ..`; and then the history. `NoMemory` comes where there is none for it.
pub fn text_of_run(alloc: Global, run: &LiveRun) -> Result<Vec<u8>, NoMemory>
    requires sure { All IsSureOfAll run.now.calls }
    requires journal { run.now.journal ≡ done_of (history_of run.now.journal) }
    ensures { IfOk result (λ text. text.items ≡ live_text run.now.calls (history_of run.now.journal)) }
{
    let mut out = Vec::new(alloc);
    put_clients(&mut out, run.calls.as_slice())?;
    let ending = end_lines(alloc, run.journal.as_slice())?;
    put_text(&mut out, ending.as_slice())?;
    Ok(out)
}

/// The text of a chain's run: for each node, in the order of their numbers, the line `node S` and a line for each of its queries,
/// `seen ENTRY ANSWER ..`; and then the history. `NoMemory` comes where there is none for it.
pub fn text_of_chain(alloc: Global, run: &ChainRun) -> Result<Vec<u8>, NoMemory>
    requires head { AreSureTold run.now.head.told }
    requires middle { AreSureTold run.now.middle.told }
    requires tail { AreSureTold run.now.tail.told }
    requires journal { run.now.head.journal ≡ done_of (history_of run.now.head.journal) }
    ensures { IfOk result (λ text. text.items
        ≡ chain_text run.now.head.told run.now.middle.told run.now.tail.told (history_of run.now.head.journal)) }
{
    let mut out = Vec::new(alloc);
    put_node(&mut out, 1, run.head.told.as_slice())?;
    put_node(&mut out, 2, run.middle.told.as_slice())?;
    put_node(&mut out, 3, run.tail.told.as_slice())?;
    let ending = end_lines(alloc, run.head.journal.as_slice())?;
    put_text(&mut out, ending.as_slice())?;
    Ok(out)
}

// The node of this number, and what its reader told.
fn put_node(out: &mut Vec<u8>, number: u64, tolds: &[Told]) -> Result<(), NoMemory>
    requires sure { AreSureTold tolds.now }
    ensures { OnOk result (out.new.items ≡ out.old.items ++ node_lines number tolds.now) }
{
    put_text(out, b"node ")?;
    put_number(out, number)?;
    put_text(out, b"\n")?;
    put_tolds(out, tolds)
}

// What a node's reader told, query by query.
fn put_tolds(out: &mut Vec<u8>, tolds: &[Told]) -> Result<(), NoMemory>
    requires sure { AreSureTold tolds.now }
    ensures { OnOk result (out.new.items ≡ out.old.items ++ flat_map (λ told. line (seen_text told)) tolds.now) }
{
    for told in tolds {
        put_seen(out, told)?;
    }
    Ok(())
}

// What was told to one query.
fn put_seen(out: &mut Vec<u8>, told: &Told) -> Result<(), NoMemory>
    requires sure { All IsSure told.now.answers }
    ensures { OnOk result (out.new.items ≡ out.old.items ++ line (seen_text told.now)) }
{
    put_text(out, b"seen ")?;
    put_number(out, told.entry)?;
    put_answers(out, told.answers.as_slice())?;
    put_text(out, b"\n")
}

// The text.
fn put_text(out: &mut Vec<u8>, text: &[u8]) -> Result<(), NoMemory>
    ensures { OnOk result (out.new.items ≡ out.old.items ++ text.now) }
{
    out.extend_from_slice(text)?;
    Ok(())
}

// The clients with what they were told.
fn put_clients(out: &mut Vec<u8>, clients: &[CallAnswers]) -> Result<(), NoMemory>
    requires sure { All IsSureOfAll clients.now }
    ensures { OnOk result (out.new.items ≡ out.old.items ++ clients_lines 1 clients.now) }
{
    for (i, answers) in clients.iter().enumerate() {
        put_client(out, i, answers.as_slice())?;
    }
    Ok(())
}

// The client at the index, and what it was told.
fn put_client(out: &mut Vec<u8>, i: usize, answers: &[LiveAnswer]) -> Result<(), NoMemory>
    requires number { i + 1 < 2 ^ 64 }
    requires sure { IsSureOfAll answers.now }
    ensures { OnOk result (out.new.items ≡ out.old.items ++ client_lines (i + 1) answers.now) }
{
    put_text(out, b"client ")?;
    put_number(out, i as u64 + 1)?;
    put_text(out, b"\n")?;
    put_calls(out, answers)
}

// What a client was told, call by call.
fn put_calls(out: &mut Vec<u8>, answers: &[LiveAnswer]) -> Result<(), NoMemory>
    requires sure { IsSureOfAll answers.now }
    ensures { OnOk result (out.new.items ≡ out.old.items ++ flat_map (λ answer. line (told_text answer)) answers.now) }
{
    for answer in answers {
        put_call(out, answer)?;
    }
    Ok(())
}

// What a client was told of one call.
fn put_call(out: &mut Vec<u8>, answer: &LiveAnswer) -> Result<(), NoMemory>
    requires sure { IsSureOf answer.now }
    ensures { OnOk result (out.new.items ≡ out.old.items ++ line (told_text answer.now)) }
{
    match answer {
        LiveAnswer::Placed(placed) => {
            put_text(out, b"placed ")?;
            put_number(out, placed.place)?;
            put_text(out, b" ")?;
            put_reply_text(out, &placed.reply)?;
        }
        LiveAnswer::Told(told) => {
            put_text(out, b"seen ")?;
            put_number(out, told.entry)?;
            put_answers(out, told.answers.as_slice())?;
        }
    }
    put_text(out, b"\n")
}

// The answers to a query, each behind a space.
fn put_answers(out: &mut Vec<u8>, answers: &[Answer]) -> Result<(), NoMemory>
    requires sure { All IsSure answers.now }
    ensures { OnOk result (out.new.items ≡ out.old.items ++ answer_words answers.now) }
{
    for answer in answers {
        put_text(out, b" ")?;
        put_answer_text(out, answer)?;
    }
    Ok(())
}
