//! Logs are read.

ghost use Rattle.std.specs.Prelude.{◌≡◌, ◌≢◌, ℕ, List, IfOk, ◌++◌, IfSome, IfNone, codes};
ghost use Rattle.std.specs.Fmt.{decimal};
ghost use Rattle.script_lang.specs.Number.{IsFromOneTo};
ghost use Rattle.script_lang.specs.Reading.{Spells, AreFromOneTo};
ghost use Rattle.clock_import.specs.Log.{IsLine, line_text};
ghost use Rattle.clock_import.specs.Reading.{IsReadAs, BeginsWithFirst};
ghost use Rattle.clock_import.specs.Read.{ReadsFirst, IsReadFrom, ReadsLog, both_words};

use crate::ImportStop;
use crate::cut::{behind, number_of, split_line, split_space};
use crate::log::{Act, LogLine};
use crate::messages::{Messages, first_bad, messages_of};
use kr_order::NoMemory;
use std::alloc::Global;

// The greatest number of processes.
const MOST_PROCESSES: u64 = 64;

// The greatest number of lines after the first.
const MOST_LINES: usize = 20_000;

// A log that was read.
#[derive(Debug, Drop)]
pub(crate) struct Log {
    pub(crate) processes: u32,
    pub(crate) lines: Vec<LogLine>,
    pub(crate) messages: Messages,
}

// The log that the bytes spell.
pub(crate) fn read_log(alloc: Global, bytes: &[u8]) -> Result<Log, ImportStop>
    ensures { ReadsLog bytes.now result }
{
    let Some((processes, rest)) = first_of(bytes) else {
        return Err(ImportStop::BadLine(1));
    };
    let (lines, rest) = read_lines(alloc, processes, rest)?;
    let messages = messages_of(alloc, lines.as_slice())?;
    match first_bad(lines.as_slice(), &messages) {
        Some(i) => Err(ImportStop::BadLine(i as u64 + 2)),
        None => {
            if !rest.is_empty() {
                return Err(ImportStop::BadLine(lines.len() as u64 + 2));
            }
            Ok(Log {
                processes,
                lines,
                messages,
            })
        }
    }
}

// The number of processes in the first line, and what follows it.
fn first_of(bytes: &[u8]) -> Option<(u32, &[u8])>
    ensures some { IfSome result (λ read. ReadsFirst bytes.now read.0 read.1.now) }
    ensures none { IfNone result (BeginsWithFirst bytes.now → ⊥) }
{
    let (text, rest) = split_line(bytes)?;
    let word = behind(text, b"processes ")?;
    let processes = number_of(word, MOST_PROCESSES)?;
    Some((processes as u32, rest))
}

// The lines behind the first, as many as a log may have, each as it is read, and what follows them.
fn read_lines(
    alloc: Global,
    processes: u32,
    bytes: &[u8],
) -> Result<(Vec<LogLine>, &[u8]), NoMemory>
    ensures { IfOk result (λ read. IsReadFrom bytes.now processes read.0.items read.1.now) }
{
    let mut lines = Vec::new(alloc);
    let mut rest = bytes;
    while lines.len() < MOST_LINES {
        let Some((text, more)) = split_line(rest) else {
            return Ok((lines, rest));
        };
        lines.push(line_of(text, processes))?;
        rest = more;
    }
    Ok((lines, rest))
}

// The line that the text spells; a bad one where it spells none.
fn line_of(text: &[u8], processes: u32) -> LogLine
    ensures { IsReadAs processes text.now result }
{
    if let Some(words) = behind(text, b"local ") {
        local_of(words, processes)
    } else if let Some(words) = behind(text, b"send ") {
        send_of(words, processes)
    } else if let Some(words) = behind(text, b"receive ") {
        receive_of(words, processes)
    } else {
        bad()
    }
}

// A line that says nothing that the grammar has.
fn bad() -> LogLine
    ensures { result ≡ record { process = 0; act = Act.Bad } }
{
    LogLine {
        process: 0,
        act: Act::Bad,
    }
}

// The line of `local p`, behind the first word.
fn local_of(words: &[u8], processes: u32) -> LogLine
    ensures { (text : List ℕ) → text ≡ codes "local " ++ words.now → IsReadAs processes text result }
{
    match number_of(words, processes as u64) {
        Some(process) => LogLine {
            process: process as u32,
            act: Act::Local,
        },
        None => bad(),
    }
}

// The line of `send p m`.
fn send_of(words: &[u8], processes: u32) -> LogLine
    ensures { (text : List ℕ) → text ≡ codes "send " ++ words.now → IsReadAs processes text result }
{
    match two_of(words, processes) {
        Some((process, message)) => LogLine {
            process: process as u32,
            act: Act::Send(message),
        },
        None => bad(),
    }
}

// The line of `receive p m`.
fn receive_of(words: &[u8], processes: u32) -> LogLine
    ensures { (text : List ℕ) → text ≡ codes "receive " ++ words.now → IsReadAs processes text result }
{
    match two_of(words, processes) {
        Some((process, message)) => LogLine {
            process: process as u32,
            act: Act::Receive(message),
        },
        None => bad(),
    }
}

// The process and the message that the words give.
fn two_of(words: &[u8], processes: u32) -> Option<(u64, u64)>
    ensures { Spells both_words (AreFromOneTo processes u64.MAX) words.now result }
{
    let (first, second) = split_space(words)?;
    let process = number_of(first, processes as u64)?;
    let message = number_of(second, u64::MAX)?;
    Some((process, message))
}
