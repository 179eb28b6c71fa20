//! The messages of a log: which line sends each, and which receives it.

ghost use Rattle.std.specs.Prelude.{◌≡◌, ℕ, List, ◌==◌, Some, is_some, if◌then◌else◌, IfOk, OnOk};
ghost use Rattle.std.specs.Ordering.{nat_cmp};
ghost use Rattle.std.specs.BTreeMap as tree;
ghost use Rattle.clock_import.specs.Log.{first_send, first_receive, sends, receives, is_at, is_allowed};
ghost use Rattle.clock_import.specs.declared.log.LogLine.{LogLine};
ghost use Rattle.clock_import.specs.Messages.{TellsFirsts, FindsBad, noted};

use crate::log::{Act, LogLine};
use kr_order::NoMemory;
use std::alloc::Global;
use std::collections::BTreeMap;

// The index of the first line of each message, from 0.
pub(crate) type Firsts = BTreeMap<u64, usize>;

// Of each message the first line that sends it, and the first that receives it.
#[derive(Debug, Drop)]
pub(crate) struct Messages {
    pub(crate) sends: Firsts,
    pub(crate) receives: Firsts,
}

// The messages of the lines.
pub(crate) fn messages_of(alloc: Global, lines: &[LogLine]) -> Result<Messages, NoMemory>
    ensures { IfOk result (TellsFirsts lines.now) }
{
    Ok(Messages {
        sends: sends_of(alloc, lines)?,
        receives: receives_of(alloc, lines)?,
    })
}

// Which line first sends each message.
fn sends_of(alloc: Global, lines: &[LogLine]) -> Result<Firsts, NoMemory>
    ensures { IfOk result (λ firsts. (m : ℕ) → tree.get nat_cmp firsts m ≡ first_send lines.now m) }
{
    let mut firsts = BTreeMap::new(alloc);
    for (i, entry) in lines.iter().enumerate() {
        note_send(&mut firsts, i, entry.act)?;
    }
    Ok(firsts)
}

// Which line first receives each message.
fn receives_of(alloc: Global, lines: &[LogLine]) -> Result<Firsts, NoMemory>
    ensures { IfOk result (λ firsts. (m : ℕ) → tree.get nat_cmp firsts m ≡ first_receive lines.now m) }
{
    let mut firsts = BTreeMap::new(alloc);
    for (i, entry) in lines.iter().enumerate() {
        note_receive(&mut firsts, i, entry.act)?;
    }
    Ok(firsts)
}

// Notes the line for the message that the act sends, if it sends one.
fn note_send(firsts: &mut Firsts, i: usize, act: Act) -> Result<(), NoMemory>
    ensures { OnOk result ((m : ℕ) → tree.get nat_cmp firsts.new m
        ≡ noted (tree.get nat_cmp firsts.old m) (sends m act) i) }
{
    match act {
        Act::Send(message) => note(firsts, message, i),
        Act::Local | Act::Receive(_) | Act::Bad => Ok(()),
    }
}

// Notes the line for the message that the act receives, if it receives one.
fn note_receive(firsts: &mut Firsts, i: usize, act: Act) -> Result<(), NoMemory>
    ensures { OnOk result ((m : ℕ) → tree.get nat_cmp firsts.new m
        ≡ noted (tree.get nat_cmp firsts.old m) (receives m act) i) }
{
    match act {
        Act::Receive(message) => note(firsts, message, i),
        Act::Local | Act::Send(_) | Act::Bad => Ok(()),
    }
}

// Notes the line for the message, if none is noted yet.
fn note(firsts: &mut Firsts, message: u64, i: usize) -> Result<(), NoMemory>
    ensures { OnOk result ((m : ℕ) → tree.get nat_cmp firsts.new m
        ≡ (if m == message then (if is_some (tree.get nat_cmp firsts.old message)
        then tree.get nat_cmp firsts.old message else Some i) else tree.get nat_cmp firsts.old m)) }
{
    if !firsts.contains_key(&message) {
        firsts.insert(message, i)?;
    }
    Ok(())
}

// The line that first sends the message.
pub(crate) fn sender(messages: &Messages, message: u64) -> Option<usize>
    ensures { result ≡ tree.get nat_cmp messages.now.sends message }
{
    messages.sends.get(&message).copied()
}

// The line that first receives it.
pub(crate) fn receiver(messages: &Messages, message: u64) -> Option<usize>
    ensures { result ≡ tree.get nat_cmp messages.now.receives message }
{
    messages.receives.get(&message).copied()
}

// Whether the index is this one.
fn is_at(found: Option<usize>, i: usize) -> bool
    ensures { result ≡ is_at found i }
{
    match found {
        Some(j) => j == i,
        None => false,
    }
}

// Whether the line at the index may have this act.
fn is_allowed(messages: &Messages, i: usize, act: Act) -> bool
    ensures { (lines : List LogLine) → TellsFirsts lines messages.now → result ≡ is_allowed lines i act }
{
    match act {
        Act::Local => true,
        Act::Send(message) => is_at(sender(messages, message), i),
        Act::Receive(message) => {
            is_at(receiver(messages, message), i) && sender(messages, message).is_some()
        }
        Act::Bad => false,
    }
}

// The first line that may not stand where it does.
pub(crate) fn first_bad(lines: &[LogLine], messages: &Messages) -> Option<usize>
    requires { TellsFirsts lines.now messages.now }
    ensures { FindsBad lines.now result }
{
    for (i, entry) in lines.iter().enumerate() {
        if !is_allowed(messages, i, entry.act) {
            return Some(i);
        }
    }
    None
}
