//! The printing of scripts, line by line.

ghost use Rattle.std.specs.Prelude.{◌≡◌, ◌++◌, IfOk, OnOk};
ghost use Rattle.script_lang.specs.Event.{event_text, event_word, event_words, ticked_number};
ghost use Rattle.script_lang.specs.Line.{line};
ghost use Rattle.script_lang.specs.Reading.{two_words};
ghost use Rattle.script_lang.specs.Script.{IsSize, first_line};

use crate::Event;
use crate::put::{add_command_word, add_command_words};
use crate::words::{add_number_word, add_text, add_words};
use kr_order::{NoMemory, ServerId};
use std::alloc::Global;

/// The script's first line, `cluster N C` with its LF, for so many servers, 1 to 8, and clients, 1 to 16.
/// `NoMemory` comes where there is no memory for it.
pub fn print_first(alloc: Global, servers: u32, clients: u32) -> Result<Vec<u8>, NoMemory>
    requires { IsSize servers clients }
    ensures { IfOk result (λ bytes. bytes.items ≡ first_line servers clients) }
{
    let mut out = Vec::new(alloc);
    add_text(&mut out, b"cluster")?;
    add_number_word(&mut out, u64::from(servers))?;
    add_number_word(&mut out, u64::from(clients))?;
    add_text(&mut out, b"\n")?;
    Ok(out)
}

/// The event's line with its LF, in its one spelling. `NoMemory` comes where
/// there is no memory for it.
pub fn print_line(alloc: Global, event: &Event) -> Result<Vec<u8>, NoMemory>
    ensures { IfOk result (λ bytes. bytes.items ≡ line (event_text event.now)) }
{
    let mut out = Vec::new(alloc);
    add_event_word(&mut out, event)?;
    add_event_words(&mut out, event)?;
    out.push(b'\n')?;
    Ok(out)
}

// The first word of the event's line.
fn add_event_word(out: &mut Vec<u8>, event: &Event) -> Result<(), NoMemory>
    ensures { OnOk result (out.new.items ≡ out.old.items ++ event_word event.now) }
{
    match event {
        Event::Call { command, .. } => add_command_word(out, command),
        Event::Query { .. } => add_text(out, b"query"),
        Event::Retry { .. } => add_text(out, b"retry"),
        Event::Deliver(_) => add_text(out, b"deliver"),
        Event::Lose(_) => add_text(out, b"lose"),
        Event::Tick(_) => add_text(out, b"tick"),
        Event::Work { .. } => add_text(out, b"work"),
        Event::Stop(_) => add_text(out, b"stop"),
        Event::Notice(_) => add_text(out, b"notice"),
        Event::Show(_) => add_text(out, b"show"),
        Event::Join => add_text(out, b"join"),
        Event::Round => add_text(out, b"round"),
        Event::Learn(_) => add_text(out, b"learn"),
    }
}

// The words that follow it.
fn add_event_words(out: &mut Vec<u8>, event: &Event) -> Result<(), NoMemory>
    ensures { OnOk result (out.new.items ≡ out.old.items ++ event_words event.now) }
{
    match event {
        Event::Call { client, command } => {
            add_number_word(out, u64::from(client.0))?;
            add_command_words(out, command)
        }
        Event::Query {
            client,
            server,
            pairs,
        } => {
            add_two(out, client.0, server.0)?;
            add_words(out, pairs.as_slice())
        }
        Event::Retry { client, server } => add_two(out, client.0, server.0),
        Event::Deliver(k) | Event::Lose(k) => add_number_word(out, *k),
        Event::Tick(who) => add_number_word(out, u64::from(number_of_tick(*who))),
        Event::Work { server, workers } => add_two(out, server.0, *workers),
        Event::Stop(server) | Event::Notice(server) | Event::Show(server) => {
            add_number_word(out, u64::from(server.0))
        }
        Event::Join | Event::Round => Ok(()),
        Event::Learn(client) => add_number_word(out, u64::from(client.0)),
    }
}

// Two numbers, each behind a space.
fn add_two(out: &mut Vec<u8>, first: u32, second: u32) -> Result<(), NoMemory>
    ensures { OnOk result (out.new.items ≡ out.old.items ++ two_words (first, second)) }
{
    add_number_word(out, u64::from(first))?;
    add_number_word(out, u64::from(second))
}

// The number in the line of a tick.
fn number_of_tick(who: Option<ServerId>) -> u32
    ensures { result ≡ ticked_number who }
{
    match who {
        Some(server) => server.0,
        None => 0,
    }
}
