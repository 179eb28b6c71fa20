//! Pairs, commands and entries.

ghost use Rattle.std.specs.Prelude.{◌≡◌, ◌++◌, OnOk};
ghost use Rattle.kr_wire.specs.Reading.{Gives, kind_of, command_by, command_at};
ghost use Rattle.kr_wire.specs.Taking.{command_by_takes, command_takes};
ghost use Rattle.kr_wire.specs.Spelling.{kind_number, command_bytes};

use crate::fields::{byte_in, id_above, positive, put_1, put_4, put_8};
use crate::items::{Spelt, capped_at, put_counted};
use crate::stop::FieldError;
use kr_order::{ClientId, Command, Entry, EventId, Kind, NoMemory, Pair};
use std::alloc::Global;

// The kind of pair with this number, 1 or 2.
fn kind_of(number: u8) -> Kind
    ensures { result ≡ kind_of number }
{
    match number {
        1 => Kind::Must,
        _ => Kind::Prefer,
    }
}

// Its number.
fn kind_number(kind: Kind) -> u8
    ensures { result ≡ kind_number kind }
{
    match kind {
        Kind::Must => 1,
        Kind::Prefer => 2,
    }
}

impl Spelt for Pair {
    ghost use Rattle.kr_wire.specs.Spelling.{pair_bytes};
    ghost use Rattle.kr_wire.specs.Reading.{pair_at};
    ghost use Rattle.kr_wire.specs.Taking.{never};

    ghost text = { pair_bytes };

    ghost reading = { pair_at };

    ghost taking = { never };

    #[tactic(auto, unfolding(crate::specs::Reading::pair_at))]
    fn read(_alloc: Global, bytes: &[u8]) -> Result<(Self, &[u8]), FieldError> {
        let (kind, rest) = byte_in(1, 2, bytes)?;
        let (first, rest) = positive(rest)?;
        let (second, rest) = positive(rest)?;
        let pair = Pair {
            first: EventId(first),
            second: EventId(second),
            kind: kind_of(kind),
        };
        Ok((pair, rest))
    }

    fn put(&self, out: &mut Vec<u8>) -> Result<(), NoMemory> {
        put_1(out, kind_number(self.kind))?;
        put_8(out, self.first.0)?;
        put_8(out, self.second.0)
    }
}

impl Spelt for (EventId, EventId) {
    ghost use Rattle.kr_wire.specs.Spelling.{asked_bytes};
    ghost use Rattle.kr_wire.specs.Reading.{asked_at};
    ghost use Rattle.kr_wire.specs.Taking.{never};

    ghost text = { asked_bytes };

    ghost reading = { asked_at };

    ghost taking = { never };

    #[tactic(auto, unfolding(crate::specs::Reading::asked_at))]
    fn read(_alloc: Global, bytes: &[u8]) -> Result<(Self, &[u8]), FieldError> {
        let (first, rest) = positive(bytes)?;
        let (second, rest) = positive(rest)?;
        Ok(((EventId(first), EventId(second)), rest))
    }

    fn put(&self, out: &mut Vec<u8>) -> Result<(), NoMemory> {
        put_8(out, self.0.0)?;
        put_8(out, self.1.0)
    }
}

// The command that follows its number, from 1 to 4, and what follows it.
#[tactic(auto, unfolding(crate::specs::Reading::command_by, crate::specs::Taking::command_by_takes))]
fn command_by(alloc: Global, number: u8, bytes: &[u8]) -> Result<(Command, &[u8]), FieldError>
    ensures { Gives (command_by_takes number bytes.now) (λ read. (read.0, read.1.now)) result (command_by number bytes.now) }
{
    match number {
        1 => Ok((Command::Create, bytes)),
        2 => {
            let (batch, rest) = capped_at(alloc, 0, bytes)?;
            Ok((Command::Assign(batch), rest))
        }
        3 => {
            let (event, rest) = positive(bytes)?;
            Ok((Command::Acquire(EventId(event)), rest))
        }
        _ => {
            let (event, rest) = positive(bytes)?;
            Ok((Command::Release(EventId(event)), rest))
        }
    }
}

// The command that the front of the bytes spells, and what follows.
#[tactic(auto, unfolding(crate::specs::Reading::command_at, crate::specs::Taking::command_takes))]
pub(crate) fn command_at(alloc: Global, bytes: &[u8]) -> Result<(Command, &[u8]), FieldError>
    ensures { Gives (command_takes bytes.now) (λ read. (read.0, read.1.now)) result (command_at bytes.now) }
{
    let (number, rest) = byte_in(1, 4, bytes)?;
    command_by(alloc, number, rest)
}

// Puts the command's spelling behind what is there.
pub(crate) fn put_command(out: &mut Vec<u8>, command: &Command) -> Result<(), NoMemory>
    ensures { OnOk result (out.new.items ≡ out.old.items ++ command_bytes command.now) }
{
    match command {
        Command::Create => put_1(out, 1),
        Command::Assign(batch) => {
            put_1(out, 2)?;
            put_counted(out, batch.as_slice())
        }
        Command::Acquire(event) => {
            put_1(out, 3)?;
            put_8(out, event.0)
        }
        Command::Release(event) => {
            put_1(out, 4)?;
            put_8(out, event.0)
        }
    }
}

impl Spelt for Entry {
    ghost use Rattle.kr_wire.specs.Spelling.{entry_bytes};
    ghost use Rattle.kr_wire.specs.Reading.{entry_at};
    ghost use Rattle.kr_wire.specs.Taking.{entry_takes};

    ghost text = { entry_bytes };

    ghost reading = { entry_at };

    ghost taking = { entry_takes };

    #[tactic(auto, unfolding(crate::specs::Reading::entry_at, crate::specs::Taking::entry_takes))]
    fn read(alloc: Global, bytes: &[u8]) -> Result<(Self, &[u8]), FieldError> {
        let (client, rest) = id_above(0, bytes)?;
        let (seq, rest) = positive(rest)?;
        let (command, rest) = command_at(alloc, rest)?;
        let entry = Entry {
            client: ClientId(client),
            seq,
            command,
        };
        Ok((entry, rest))
    }

    fn put(&self, out: &mut Vec<u8>) -> Result<(), NoMemory> {
        put_4(out, self.client.0)?;
        put_8(out, self.seq)?;
        put_command(out, &self.command)
    }
}
