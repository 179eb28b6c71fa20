//! The event of a line.

ghost use Rattle.std.specs.Prelude.{IfOk, codes};
ghost use Rattle.script_lang.specs.Event.{IsEvent, event_text, event_words};
ghost use Rattle.script_lang.specs.Reading.{Spells, IsEventOf};

use crate::Event;
use crate::line::{is, split_word};
use crate::numbers::{number_word, one_number, two_numbers};
use crate::pairs::pairs_of;
use kr_order::{ClientId, Command, EventId, NoMemory, ServerId};
use std::alloc::Global;

// The greatest number of a client, a server or a packet.
const MOST: u64 = 4_294_967_295;

// The greatest number of workers.
const MOST_WORKERS: u64 = 8;

// The smallest number of pairs in a query.
const FEWEST_ASKED: usize = 1;

// The event of the line.
pub(crate) fn event_of(alloc: Global, text: &[u8]) -> Result<Option<Event>, NoMemory>
    ensures { IfOk result (λ read. Spells event_text IsEvent text.now read) }
{
    let (word, words) = split_word(text);
    event_by(alloc, word, words)
}

// The event of a line with this first word and these words behind it.
fn event_by(alloc: Global, word: &[u8], words: &[u8]) -> Result<Option<Event>, NoMemory>
    ensures { IfOk result (λ read. Spells event_words (IsEventOf word.now) words.now read) }
{
    if is(word, b"create") {
        Ok(create_of(words))
    } else if is(word, b"assign") {
        assign_of(alloc, words)
    } else if is(word, b"acquire") {
        Ok(acquire_of(words))
    } else if is(word, b"release") {
        Ok(release_of(words))
    } else if is(word, b"query") {
        query_of(alloc, words)
    } else if is(word, b"retry") {
        Ok(retry_of(words))
    } else if is(word, b"deliver") {
        Ok(deliver_of(words))
    } else if is(word, b"lose") {
        Ok(lose_of(words))
    } else if is(word, b"tick") {
        Ok(tick_of(words))
    } else if is(word, b"work") {
        Ok(work_of(words))
    } else if is(word, b"stop") {
        Ok(stop_of(words))
    } else if is(word, b"notice") {
        Ok(notice_of(words))
    } else if is(word, b"show") {
        Ok(show_of(words))
    } else if is(word, b"join") {
        Ok(join_of(words))
    } else if is(word, b"round") {
        Ok(round_of(words))
    } else if is(word, b"learn") {
        Ok(learn_of(words))
    } else {
        Ok(None)
    }
}

// The event of `create c`, behind the first word.
fn create_of(words: &[u8]) -> Option<Event>
    ensures { Spells event_words (IsEventOf (codes "create")) words.now result }
{
    let client = one_number(words, MOST)?;
    Some(Event::Call {
        client: ClientId(client as u32),
        command: Command::Create,
    })
}

// The event of `assign c P P ..`, behind the first word.
fn assign_of(alloc: Global, words: &[u8]) -> Result<Option<Event>, NoMemory>
    ensures { IfOk result (λ read. Spells event_words (IsEventOf (codes "assign")) words.now read) }
{
    let Some((client, rest)) = number_word(words, MOST) else {
        return Ok(None);
    };
    let Some(batch) = pairs_of(alloc, rest)? else {
        return Ok(None);
    };
    Ok(Some(Event::Call {
        client: ClientId(client as u32),
        command: Command::Assign(batch),
    }))
}

// The event of `acquire c e`, behind the first word.
fn acquire_of(words: &[u8]) -> Option<Event>
    ensures { Spells event_words (IsEventOf (codes "acquire")) words.now result }
{
    let (client, event) = two_numbers(words, MOST, u64::MAX)?;
    Some(Event::Call {
        client: ClientId(client as u32),
        command: Command::Acquire(EventId(event)),
    })
}

// The event of `release c e`, behind the first word.
fn release_of(words: &[u8]) -> Option<Event>
    ensures { Spells event_words (IsEventOf (codes "release")) words.now result }
{
    let (client, event) = two_numbers(words, MOST, u64::MAX)?;
    Some(Event::Call {
        client: ClientId(client as u32),
        command: Command::Release(EventId(event)),
    })
}

// The event of `query c s Q Q ..`, behind the first word.
fn query_of(alloc: Global, words: &[u8]) -> Result<Option<Event>, NoMemory>
    ensures { IfOk result (λ read. Spells event_words (IsEventOf (codes "query")) words.now read) }
{
    let Some((client, rest)) = number_word(words, MOST) else {
        return Ok(None);
    };
    let Some((server, rest)) = number_word(rest, MOST) else {
        return Ok(None);
    };
    let Some(pairs) = pairs_of(alloc, rest)? else {
        return Ok(None);
    };
    if pairs.len() < FEWEST_ASKED {
        return Ok(None);
    }
    Ok(Some(Event::Query {
        client: ClientId(client as u32),
        server: ServerId(server as u32),
        pairs,
    }))
}

// The event of `retry c s`, behind the first word.
fn retry_of(words: &[u8]) -> Option<Event>
    ensures { Spells event_words (IsEventOf (codes "retry")) words.now result }
{
    let (client, server) = two_numbers(words, MOST, MOST)?;
    Some(Event::Retry {
        client: ClientId(client as u32),
        server: ServerId(server as u32),
    })
}

// The event of `deliver k`, behind the first word.
fn deliver_of(words: &[u8]) -> Option<Event>
    ensures { Spells event_words (IsEventOf (codes "deliver")) words.now result }
{
    let k = one_number(words, MOST)?;
    Some(Event::Deliver(k))
}

// The event of `lose k`, behind the first word.
fn lose_of(words: &[u8]) -> Option<Event>
    ensures { Spells event_words (IsEventOf (codes "lose")) words.now result }
{
    let k = one_number(words, MOST)?;
    Some(Event::Lose(k))
}

// The event of `tick s`, behind the first word, where server 0 is the manager.
fn tick_of(words: &[u8]) -> Option<Event>
    ensures { Spells event_words (IsEventOf (codes "tick")) words.now result }
{
    if is(words, b" 0") {
        return Some(Event::Tick(None));
    }
    let server = one_number(words, MOST)?;
    Some(Event::Tick(Some(ServerId(server as u32))))
}

// The event of `work s w`, behind the first word.
fn work_of(words: &[u8]) -> Option<Event>
    ensures { Spells event_words (IsEventOf (codes "work")) words.now result }
{
    let (server, workers) = two_numbers(words, MOST, MOST_WORKERS)?;
    Some(Event::Work {
        server: ServerId(server as u32),
        workers: workers as u32,
    })
}

// The event of `stop s`, behind the first word.
fn stop_of(words: &[u8]) -> Option<Event>
    ensures { Spells event_words (IsEventOf (codes "stop")) words.now result }
{
    let server = one_number(words, MOST)?;
    Some(Event::Stop(ServerId(server as u32)))
}

// The event of `notice s`, behind the first word.
fn notice_of(words: &[u8]) -> Option<Event>
    ensures { Spells event_words (IsEventOf (codes "notice")) words.now result }
{
    let server = one_number(words, MOST)?;
    Some(Event::Notice(ServerId(server as u32)))
}

// The event of `show s`, behind the first word.
fn show_of(words: &[u8]) -> Option<Event>
    ensures { Spells event_words (IsEventOf (codes "show")) words.now result }
{
    let server = one_number(words, MOST)?;
    Some(Event::Show(ServerId(server as u32)))
}

// The event of `join`, behind the word, where nothing may stand.
fn join_of(words: &[u8]) -> Option<Event>
    ensures { Spells event_words (IsEventOf (codes "join")) words.now result }
{
    if !words.is_empty() {
        return None;
    }
    Some(Event::Join)
}

// The event of `round`, behind the word, where nothing may stand.
fn round_of(words: &[u8]) -> Option<Event>
    ensures { Spells event_words (IsEventOf (codes "round")) words.now result }
{
    if words.is_empty() {
        Some(Event::Round)
    } else {
        None
    }
}

// The event of `learn c`, behind the first word.
fn learn_of(words: &[u8]) -> Option<Event>
    ensures { Spells event_words (IsEventOf (codes "learn")) words.now result }
{
    let client = one_number(words, MOST)?;
    Some(Event::Learn(ClientId(client as u32)))
}
