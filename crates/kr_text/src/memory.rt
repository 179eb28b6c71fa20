//! Sources and sinks in memory: some without faults, and some that fail at the calls they were told.
//!
//! Contracts see a `NoFaultSource` as the bytes that it has left, and a `FailingSource` and a `FailingSink`
//! as records of their bytes, the calls that fail, the calls so far and the faults so far.

ghost use Rattle.std.specs.Prelude.{◌≡◌, ◌-◌, ◌<◌, ◌≤◌, ◌↔◌, ◌⊎◌, ℕ, List, [], length, take, drop, min, Some, None, IfOk, IsErr};
ghost use Rattle.std.specs.Prelude.{Contains, vec_len, vec_capacity};
ghost use Rattle.std.specs.Io.{ReadsAtMost, WritesAtMost};
ghost use Rattle.std.specs.Io.KnownBytes.{ReadConsumes, WriteAppends};
ghost use Rattle.kr_text.specs.Causes.{HasCause};
ghost use Rattle.kr_text.specs.Memory.{FailingReads, FailingWrites, AfterRead, AfterWrite, IsFull, count_on};

use crate::{Failed, Sink, Source};
use kr_order::NoMemory;
use std::alloc::Global;
use std::marker::Model;

/// A source of given bytes that never fails. Each read gives as many as there is room for.
#[derive(Debug, Drop)]
pub struct NoFaultSource {
    bytes: Vec<u8>,
    at: usize,
}

impl Model for NoFaultSource {
    ghost Value = { List ℕ };

    ghost view = { λ source. drop source.at source.bytes.items };

    ghost invariant = { λ source. source.at ≤ vec_len source.bytes };
}

impl NoFaultSource {
    /// The source of these bytes.
    pub fn new(bytes: Vec<u8>) -> Self
        ensures { result ≡ bytes.items }
    {
        NoFaultSource { bytes, at: 0 }
    }

    // Copies as many of the bytes that are left as `buf` has room for, and says how many.
    fn give(&mut self, buf: &mut [u8]) -> usize
        ensures count { result ≡ min (length buf.new) (length self.old) }
        ensures given { take result buf.new ≡ take result self.old }
        ensures rest { self.new ≡ drop result self.old }
    {
        let rest = self.bytes.as_slice().split_at(self.at).1;
        let count = buf.len().min(rest.len());
        buf[..count].copy_from_slice(&rest[..count]);
        self.at += count;
        count
    }
}

impl Source for NoFaultSource {
    ghost left = { λ source. Some source };

    ghost faults = { λ source. 0 };

    fn read(&mut self, buf: &mut [u8]) -> Result<usize, Failed>
        ensures bound { ReadsAtMost result buf.new }
        ensures bytes { ReadConsumes (Some self.old) (Some self.new) result buf.new }
        ensures cause { HasCause 0 0 result }
        ensures count { result ≡ Ok (min (length buf.new) (length self.old)) }
    {
        Ok(self.give(buf))
    }
}

/// A sink that takes each piece whole, keeps nothing and never fails.
#[derive(Clone, Copy, Debug, Default, PartialEq, Eq)]
pub struct NoFaultSink;

impl NoFaultSink {
    /// The sink. It takes no memory.
    pub fn new() -> Self
        ensures held { ⟦<NoFaultSink as Sink>⟧.held result ≡ None }
        ensures faults { ⟦<NoFaultSink as Sink>⟧.faults result ≡ 0 }
    {
        NoFaultSink
    }
}

impl Sink for NoFaultSink {
    ghost held = { λ sink. None };

    ghost faults = { λ sink. 0 };

    fn write(&mut self, piece: &[u8]) -> Result<usize, Failed>
        ensures bound { WritesAtMost result piece.now }
        ensures progress { 0 < length piece.now → IfOk result (λ count. 1 ≤ count) }
        ensures bytes { WriteAppends None None result piece.now }
        ensures cause { HasCause 0 0 result }
        ensures whole { result ≡ Ok (length piece.now) }
    {
        Ok(piece.len())
    }
}

/// A source of given bytes whose reads fail at given calls. Each other read gives as many bytes as there is
/// room for.
#[derive(Debug, Drop)]
pub struct FailingSource {
    inner: NoFaultSource,
    fails: Vec<u64>,
    calls: u64,
    faults: u64,
}

impl Model for FailingSource {
    ghost Value = { FailingReads };

    ghost view = { λ source. record {
      left = source.inner;
      fails = source.fails.items;
      calls = source.calls;
      faults = source.faults;
    } };
}

impl FailingSource {
    /// The source of these bytes, where each call of `read` fails whose number is in `fails`. The first call
    /// has number 1.
    pub fn new(bytes: Vec<u8>, fails: Vec<u64>) -> Self
        ensures { result ≡ record { left = bytes.items; fails = fails.items; calls = 0; faults = 0 } }
    {
        let inner = NoFaultSource::new(bytes);
        FailingSource {
            inner,
            fails,
            calls: 0,
            faults: 0,
        }
    }
}

impl Source for FailingSource {
    ghost left = { λ source. Some source.left };

    ghost faults = { λ source. source.faults };

    fn read(&mut self, buf: &mut [u8]) -> Result<usize, Failed>
        ensures bound { ReadsAtMost result buf.new }
        ensures bytes { ReadConsumes (Some self.old.left) (Some self.new.left) result buf.new }
        ensures cause { HasCause self.old.faults self.new.faults result }
        ensures fails { IsErr result ↔ Contains self.old.fails (count_on self.old.calls) }
        ensures after { AfterRead self.old result self.new }
    {
        self.calls = self.calls.saturating_add(1);
        if self.fails.contains(&self.calls) {
            self.faults = self.faults.saturating_add(1);
            return Err(Failed);
        }
        Ok(self.inner.give(buf))
    }
}

/// A sink that keeps what it takes, in room of a given size, and whose writes fail at given calls. A write of
/// a piece that is not empty fails too where no room is left. Each other write takes what there is room for.
#[derive(Debug, Drop)]
pub struct FailingSink {
    bytes: Vec<u8>,
    room: usize,
    fails: Vec<u64>,
    calls: u64,
    faults: u64,
}

impl Model for FailingSink {
    ghost Value = { FailingWrites };

    ghost view = { λ sink. record {
      held = sink.bytes.items;
      room = sink.room;
      fails = sink.fails.items;
      calls = sink.calls;
      faults = sink.faults;
    } };

    ghost invariant = { λ sink. (vec_len sink.bytes ≤ sink.room) × (sink.room ≤ vec_capacity sink.bytes) };
}

impl FailingSink {
    /// The empty sink with room for `room` bytes, where each call of `write` fails whose number is in `fails`.
    /// The first call has number 1. `NoMemory` comes where there is no memory for the room.
    pub fn new(alloc: Global, room: usize, fails: Vec<u64>) -> Result<Self, NoMemory>
        ensures { IfOk result (λ sink. sink ≡
            record { held = []; room = room; fails = fails.items; calls = 0; faults = 0 }) }
    {
        let bytes = Vec::with_capacity(alloc, room)?;
        Ok(FailingSink {
            bytes,
            room,
            fails,
            calls: 0,
            faults: 0,
        })
    }

    /// The bytes that were written so far.
    pub fn bytes(&self) -> &[u8]
        ensures held { result.now ≡ self.now.held }
        ensures room { length result.now ≤ self.now.room }
    {
        &self.bytes
    }
}

impl Sink for FailingSink {
    ghost held = { λ sink. Some sink.held };

    ghost faults = { λ sink. sink.faults };

    fn write(&mut self, piece: &[u8]) -> Result<usize, Failed>
        ensures bound { WritesAtMost result piece.now }
        ensures progress { 0 < length piece.now → IfOk result (λ count. 1 ≤ count) }
        ensures bytes { WriteAppends (Some self.old.held) (Some self.new.held) result piece.now }
        ensures cause { HasCause self.old.faults self.new.faults result }
        ensures fails { IsErr result ↔
            (Contains self.old.fails (count_on self.old.calls) ⊎ IsFull self.old piece.now) }
        ensures count { IfOk result (λ count. count ≡
            min (length piece.now) (self.old.room - length self.old.held)) }
        ensures after { AfterWrite self.old piece.now result self.new }
    {
        let room = self.room - self.bytes.len();
        self.calls = self.calls.saturating_add(1);
        if self.fails.contains(&self.calls) || (room == 0 && !piece.is_empty()) {
            self.faults = self.faults.saturating_add(1);
            return Err(Failed);
        }
        let count = piece.len().min(room);
        self.bytes.extend_from_slice(&piece[..count]).unwrap();
        Ok(count)
    }
}
