//! The input of a chain: commands and queries, line by line, and the plan that they give.

ghost use Rattle.std.specs.Prelude.{◌≡◌, ◌<◌, ◌^◌, length, IfOk, OnOk};
ghost use Rattle.script_lang.specs.Reading.{Spells};
ghost use Rattle.script_lang.specs.Chain.{AreMade, IsChainLine, IsChainQuery, ReadsChain, chain_text, query_words, with_chain_line};

use crate::ScriptStop;
use crate::line::{behind, is, split_line, split_word};
use crate::live::{LiveCall, call_of};
use crate::numbers::{count_word, number_word};
use crate::pairs::pairs_of;
use kr_order::{Asked, ClientId, Command, Entries, Entry, Listed, NoMemory};
use std::alloc::Global;

// The greatest number of clients.
const MOST_CLIENTS: u32 = 16;

// How many nodes a chain has.
const NODES: u64 = 3;

/// A query of one node, as one line has it.
#[derive(Debug, Drop)]
pub struct ChainQuery {
    /// The node, from 1 to 3: the head, the middle and the tail.
    pub node: u32,
    /// After how many entries it is answered, at least.
    pub least: u64,
    /// The pairs that it asks about, 1 to 32.
    pub pairs: Asked,
}

/// The queries of all nodes, in the order of their lines.
pub type ChainQueries = Listed<ChainQuery>;

/// What a chain is to do: the entries, in the order of their lines, and the queries of its nodes. Those of one client have the
/// numbers 1, 2, 3 and so on.
#[derive(Debug, Drop)]
pub struct ChainPlan {
    pub entries: Entries,
    pub queries: ChainQueries,
}

/// One line of the input of a chain, behind the first.
#[derive(Debug, Drop)]
pub enum ChainLine {
    /// `create c`, `acquire c e`, `release c e`, or `assign c P P ..` with a word `a!b` for each must and `a?b` for each
    /// prefer: client c, 1 to 16, makes the command.
    Command(ClientId, Command),
    /// `query s k Q Q ..` with a word `a,b` for each pair, 1 to 32 of them: node s, 1 to 3, is asked about the pairs after at
    /// least k entries, of which there are no more than command lines above.
    Query(ChainQuery),
}

/// The plan that the bytes spell. `BadLine` comes exactly where they spell none, with the number of the first line that
/// is not in the grammar; bytes with no line at all have their bad line at 1.
pub fn read_chain(alloc: Global, bytes: &[u8]) -> Result<ChainPlan, ScriptStop>
    ensures { ReadsChain bytes.now result }
{
    let Some(mut rest) = behind(bytes, b"chain\n") else {
        return Err(ScriptStop::BadLine(1));
    };
    let mut plan = ChainPlan {
        entries: Entries::new(alloc),
        queries: ChainQueries::new(alloc),
    };
    let mut made = [0; 16];
    let mut number = 2;
    while !rest.is_empty() {
        let Some((text, more)) = split_line(rest) else {
            return Err(ScriptStop::BadLine(number));
        };
        let Some(line) = line_of(alloc, plan.entries.len() as u64, text)? else {
            return Err(ScriptStop::BadLine(number));
        };
        add_line(&mut plan, &mut made, line)?;
        number += 1;
        rest = more;
    }
    Ok(plan)
}

// Puts into the plan what the line gives. The array holds how many commands each client made.
fn add_line(plan: &mut ChainPlan, made: &mut [u64; 16], line: ChainLine) -> Result<(), NoMemory>
    requires line { IsChainLine (length plan.old.entries) line }
    requires made { AreMade plan.old.entries made.old }
    requires few { length plan.old.entries < 2 ^ 63 }
    ensures plan { OnOk result (plan.new ≡ with_chain_line plan.old line) }
    ensures made { OnOk result (AreMade plan.new.entries made.new) }
{
    match line {
        ChainLine::Command(client, command) => {
            let seq = made[client.0 as usize - 1] + 1;
            plan.entries.push(Entry {
                client,
                seq,
                command,
            })?;
            made[client.0 as usize - 1] = seq;
        }
        ChainLine::Query(query) => plan.queries.push(query)?,
    }
    Ok(())
}

// What the line gives that stands below so many lines of commands.
fn line_of(alloc: Global, above: u64, text: &[u8]) -> Result<Option<ChainLine>, NoMemory>
    ensures { IfOk result (λ read. Spells chain_text (IsChainLine above) text.now read) }
{
    let (word, words) = split_word(text);
    if is(word, b"query") {
        let Some(query) = query_of(alloc, above, words)? else {
            return Ok(None);
        };
        return Ok(Some(ChainLine::Query(query)));
    }
    let Some((client, call)) = call_of(alloc, MOST_CLIENTS, text)? else {
        return Ok(None);
    };
    match call {
        LiveCall::Command(command) => Ok(Some(ChainLine::Command(client, command))),
        LiveCall::Query(_) => Ok(None),
    }
}

// The query of `query s k Q Q ..`, behind the first word.
fn query_of(alloc: Global, above: u64, words: &[u8]) -> Result<Option<ChainQuery>, NoMemory>
    ensures { IfOk result (λ read. Spells query_words (IsChainQuery above) words.now read) }
{
    let Some((node, words)) = number_word(words, NODES) else {
        return Ok(None);
    };
    let Some((least, words)) = count_word(words, above) else {
        return Ok(None);
    };
    let Some(pairs) = pairs_of(alloc, words)? else {
        return Ok(None);
    };
    if pairs.len() == 0 {
        return Ok(None);
    }
    Ok(Some(ChainQuery {
        node: node as u32,
        least,
        pairs,
    }))
}
