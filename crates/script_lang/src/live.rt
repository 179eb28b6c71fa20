//! Live input: how many clients there are, and what each of them calls, line by line.

ghost use Rattle.std.specs.Prelude.{IfOk, IfSome, IfNone, codes};
ghost use Rattle.script_lang.specs.Number.{BeginsNoDigit};
ghost use Rattle.script_lang.specs.Reading.{Spells};
ghost use Rattle.script_lang.specs.Live.{AreClients, IsCalled, IsCallOf, ReadsLive, ReadsClients, BeginsWithClients, live_text, live_words};

use crate::ScriptStop;
use crate::line::{behind, is, split_line, split_word};
use crate::numbers::{number_in_front, number_word, one_number};
use crate::pairs::pairs_of;
use kr_order::{Asked, ClientId, Command, Copied, EventId, Listed, NoMemory};
use std::alloc::Global;

// The greatest number of clients.
const MOST_CLIENTS: u64 = 16;

/// What a client calls, as one line of live input has it.
#[derive(Debug, Drop)]
pub enum LiveCall {
    /// `create c`, `acquire c e`, `release c e`, or `assign c P P ..` with a word `a!b` for each must and `a?b` for each
    /// prefer: client c makes the command.
    Command(Command),
    /// `query c Q Q ..` with a word `a,b` for each pair, 1 to 32 of them: client c asks about the pairs.
    Query(Asked),
}

/// The clients' calls, in the order of their lines, each with its client.
pub type LiveCalls = Listed<(ClientId, LiveCall)>;

/// How many clients there are, 1 to 16, and what they call; each call is of one of them.
#[derive(Debug, Drop)]
pub struct LivePlan {
    pub clients: u32,
    pub calls: LiveCalls,
}

impl Copied for LiveCall {
    fn copy(&self, alloc: Global) -> Result<Self, NoMemory> {
        match self {
            LiveCall::Command(command) => Ok(LiveCall::Command(command.copy(alloc)?)),
            LiveCall::Query(pairs) => Ok(LiveCall::Query(pairs.copy()?)),
        }
    }
}

/// The plan that the bytes spell. `BadLine` comes exactly where they spell none, with the number of the first line that
/// is not in the grammar; bytes with no line at all have their bad line at 1.
pub fn read_live(alloc: Global, bytes: &[u8]) -> Result<LivePlan, ScriptStop>
    ensures { ReadsLive bytes.now result }
{
    let Some((clients, mut rest)) = clients_line(bytes) else {
        return Err(ScriptStop::BadLine(1));
    };
    let mut calls = LiveCalls::new(alloc);
    while !rest.is_empty() {
        let line = calls.len() as u64 + 2;
        let Some((text, more)) = split_line(rest) else {
            return Err(ScriptStop::BadLine(line));
        };
        let Some(call) = call_of(alloc, clients, text)? else {
            return Err(ScriptStop::BadLine(line));
        };
        calls.push(call)?;
        rest = more;
    }
    Ok(LivePlan { clients, calls })
}

// The number of clients in the first line, and what follows it.
fn clients_line(bytes: &[u8]) -> Option<(u32, &[u8])>
    ensures some { IfSome result (λ read. ReadsClients bytes.now read.0 read.1.now) }
    ensures none { IfNone result (BeginsWithClients bytes.now → ⊥) }
{
    let number = behind(bytes, b"live ")?;
    let (clients, end) = number_in_front(number, MOST_CLIENTS)?;
    let rest = behind(end, b"\n")?;
    Some((clients as u32, rest))
}

// The call of the line, by one of so many clients.
pub(crate) fn call_of(
    alloc: Global,
    clients: u32,
    text: &[u8],
) -> Result<Option<(ClientId, LiveCall)>, NoMemory>
    requires { AreClients clients }
    ensures { IfOk result (λ read. Spells live_text (IsCalled clients) text.now read) }
{
    let (word, rest) = split_word(text);
    let Some((client, words)) = number_word(rest, u64::from(clients)) else {
        return Ok(None);
    };
    let Some(call) = call_by(alloc, word, words)? else {
        return Ok(None);
    };
    Ok(Some((ClientId(client as u32), call)))
}

// The call of a line with this first word and these words behind the client.
fn call_by(alloc: Global, word: &[u8], words: &[u8]) -> Result<Option<LiveCall>, NoMemory>
    requires { BeginsNoDigit words.now }
    ensures { IfOk result (λ read. Spells live_words (IsCallOf word.now) words.now read) }
{
    if is(word, b"create") {
        Ok(create_of(words))
    } else if is(word, b"assign") {
        assign_of(alloc, words)
    } else if is(word, b"acquire") {
        Ok(acquire_of(words))
    } else if is(word, b"release") {
        Ok(release_of(words))
    } else if is(word, b"query") {
        query_of(alloc, words)
    } else {
        Ok(None)
    }
}

// The call of `create c`, behind the client, where nothing may stand.
fn create_of(words: &[u8]) -> Option<LiveCall>
    ensures { Spells live_words (IsCallOf (codes "create")) words.now result }
{
    if words.is_empty() {
        Some(LiveCall::Command(Command::Create))
    } else {
        None
    }
}

// The call of `assign c P P ..`, behind the client.
fn assign_of(alloc: Global, words: &[u8]) -> Result<Option<LiveCall>, NoMemory>
    requires { BeginsNoDigit words.now }
    ensures { IfOk result (λ read. Spells live_words (IsCallOf (codes "assign")) words.now read) }
{
    let Some(batch) = pairs_of(alloc, words)? else {
        return Ok(None);
    };
    Ok(Some(LiveCall::Command(Command::Assign(batch))))
}

// The call of `acquire c e`, behind the client.
fn acquire_of(words: &[u8]) -> Option<LiveCall>
    ensures { Spells live_words (IsCallOf (codes "acquire")) words.now result }
{
    let event = one_number(words, u64::MAX)?;
    Some(LiveCall::Command(Command::Acquire(EventId(event))))
}

// The call of `release c e`, behind the client.
fn release_of(words: &[u8]) -> Option<LiveCall>
    ensures { Spells live_words (IsCallOf (codes "release")) words.now result }
{
    let event = one_number(words, u64::MAX)?;
    Some(LiveCall::Command(Command::Release(EventId(event))))
}

// The call of `query c Q Q ..`, behind the client.
fn query_of(alloc: Global, words: &[u8]) -> Result<Option<LiveCall>, NoMemory>
    requires { BeginsNoDigit words.now }
    ensures { IfOk result (λ read. Spells live_words (IsCallOf (codes "query")) words.now read) }
{
    let Some(pairs) = pairs_of(alloc, words)? else {
        return Ok(None);
    };
    if pairs.len() == 0 {
        return Ok(None);
    }
    Ok(Some(LiveCall::Query(pairs)))
}
