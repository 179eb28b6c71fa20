//! The commands that make an import's events and bind its pairs.

ghost use Rattle.std.specs.Prelude.{◌≡◌, ◌≤◌, ◌<◌, ◌++◌, ◌∷◌, [], List, length, replicate, IfOk, OnOk};
ghost use Rattle.kr_order.specs.declared.history.Command.TheVariants.{Create, Assign};
ghost use Rattle.clock_import.specs.Pairs.{numbers, numbered};
ghost use Rattle.clock_import.specs.Commands.{must_of, below_of, batches_over};

use crate::Imported;
use kr_order::{Batch, Command, EventId, Kind, Listed, NoMemory, Pair, PushStop};
use std::alloc::Global;

/// Commands, in the order in which they are to be given.
pub type Commands = Listed<Command>;

impl Imported {
    ghost use Rattle.clock_import.specs.declared.log.LogLine.{LogLine};
    ghost use Rattle.clock_import.specs.Imported.{IsImported, TellsOf};
    ghost use Rattle.clock_import.specs.Commands.{commands_of, AnswerAsTold};

    /// A create for each event, and then for each event that has pairs a batch of them, all musts. Where one client gives
    /// these commands to a new service, an event is answered to be before another exactly where a path of the pairs leads
    /// from it there.
    pub fn commands(&self, alloc: Global) -> Result<Commands, NoMemory>
        requires { IsImported self.now }
        ensures commands { IfOk result (λ commands. (lines : List LogLine) → TellsOf lines self.now → commands ≡ commands_of lines) }
        ensures answers { IfOk result (λ commands. AnswerAsTold commands self.now) }
    {
        commands_over(alloc, self.events.len(), self.pairs.as_slice())
    }
}

// A create for each of so many events, and the batches of the pairs.
fn commands_over(
    alloc: Global,
    events: usize,
    pairs: &[(EventId, EventId)],
) -> Result<Commands, NoMemory>
    ensures { IfOk result (λ commands. commands ≡ replicate events Create ++ batches_over (numbered pairs.now)) }
{
    let mut commands = creates(alloc, events)?;
    let mut rest = pairs;
    while let [pair, more @ ..] = rest {
        let (batch, after) = first_batch(alloc, *pair, more)?;
        commands.push(Command::Assign(batch))?;
        rest = after;
    }
    Ok(commands)
}

// So many creates.
fn creates(alloc: Global, events: usize) -> Result<Commands, NoMemory>
    ensures { IfOk result (λ commands. commands ≡ replicate events Create) }
{
    let mut commands = Commands::new(alloc);
    for _ in 0..events {
        commands.push(Command::Create)?;
    }
    Ok(commands)
}

// The batch of the event that the pair came with, where these come next, and the pairs behind it.
fn first_batch(
    alloc: Global,
    pair: (EventId, EventId),
    more: &[(EventId, EventId)],
) -> Result<(Batch, &[(EventId, EventId)]), NoMemory>
    ensures batch { IfOk result (λ read. batches_over (numbers pair ∷ numbered more.now)
        ≡ Assign read.0 ∷ batches_over (numbered read.1.now)) }
    ensures shorter { IfOk result (λ read. length read.1.now ≤ length more.now) }
{
    let mut batch = Batch::new(alloc);
    add_must(&mut batch, pair)?;
    if let [other, after @ ..] = more {
        if below_of(*other) == below_of(pair) {
            add_must(&mut batch, *other)?;
            return Ok((batch, after));
        }
    }
    Ok((batch, more))
}

// The event that the pair came with: the one of its two that stands below.
fn below_of(pair: (EventId, EventId)) -> u64
    ensures { result ≡ below_of (numbers pair) }
{
    pair.0.0.max(pair.1.0)
}

// Adds the pair as one that has to hold.
fn add_must(batch: &mut Batch, pair: (EventId, EventId)) -> Result<(), NoMemory>
    requires { length batch.old < 32 }
    ensures { OnOk result (batch.new ≡ batch.old ++ must_of (numbers pair) ∷ []) }
{
    let must = Pair {
        first: pair.0,
        second: pair.1,
        kind: Kind::Must,
    };
    match batch.push(must) {
        Ok(()) => Ok(()),
        Err(PushStop::Full) => unreachable!(),
        Err(PushStop::NoMemory) => Err(NoMemory),
    }
}
