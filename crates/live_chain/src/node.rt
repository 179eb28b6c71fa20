//! A node: it applies what it is passed, and passes it on.

ghost use Rattle.std.specs.Prelude.{◌≡◌, ◌<◌, [], false, length, OnOk};
ghost use Rattle.live_chain.specs.Nodes.{IsAt, IsSameNode, IsThrough, HasEnded, HasPopped, HasRoom};

use crate::ring::{Counted, Passed, copy_for, pass_on};
use kr_order::{ClientId, DoneEntry, Entry, NoMemory};
use kr_text::{Gate, Point};
use order_board::BoardWriter;
use rtrb::{Consumer, Producer};
use std::alloc::Global;
use std::sync::Wait;
use std::thread;

// A node of a chain: its number from 1, the most entries that it is passed, the writer of its copies, its journal, the end of
// the ring that it is passed entries by, the end of the next node's ring, where there is one, and that of its reader's ring.
pub struct Node {
    pub number: u32,
    pub most: u32,
    pub writer: BoardWriter,
    pub journal: Vec<DoneEntry>,
    pub from: Consumer<Passed>,
    pub next: Option<Producer<Passed>>,
    pub counts: Producer<Counted>,
    pub failed: bool,
}

impl Node {
    // Applies the entry, passes it on, and counts it.
    fn take<R: Wait, G: Gate>(
        &mut self,
        rt: &R,
        alloc: Global,
        gate: &G,
        entry: Entry,
    ) -> Result<(), NoMemory>
        requires popped { HasPopped self.old entry }
        requires few { length self.old.writer.list < self.old.most }
        ensures same { IsSameNode self.old self.new }
        ensures room { HasRoom self.new }
        ensures ok { OnOk result (IsAt self.new) }
    {
        let place = self.writer.count() + 1;
        gate.at(ClientId(self.number), place as u32, Point::Holding);
        let copy = copy_for(&self.next, alloc, &entry)?;
        self.journal.reserve(1)?;
        let reply = self.writer.apply(rt, &entry)?;
        pass_on(&mut self.next, copy);
        self.journal.push_reserved(DoneEntry {
            place,
            entry,
            reply,
        });
        self.counts.push_reserved(Counted::Applied(place));
        Ok(())
    }

    // Takes entries until the end mark comes.
    fn take_all<R: Wait, G: Gate>(
        &mut self,
        rt: &R,
        alloc: Global,
        gate: &G,
    ) -> Result<(), NoMemory>
        requires at { IsAt self.old }
        ensures same { IsSameNode self.old self.new }
        ensures room { HasRoom self.new }
        ensures ok { OnOk result (HasEnded self.new) }
    {
        for _ in rt.forever() {
            match self.from.pop() {
                Ok(Passed::Next(entry)) => {
                    if self.writer.count() >= u64::from(self.most) {
                        return Err(NoMemory);
                    }
                    self.take(rt, alloc, gate, entry)?;
                }
                Ok(Passed::End) => return Ok(()),
                Err(_) => thread::yield_now(),
            }
        }
        unreachable!()
    }

    // Pops what it is still passed, up to the end mark.
    fn drain<R: Wait>(&mut self, rt: &R)
        requires room { HasRoom self.old }
        ensures same { IsSameNode self.old self.new }
        ensures room { HasRoom self.new }
        ensures failed { self.new.failed ≡ self.old.failed }
    {
        for _ in rt.forever() {
            match self.from.pop() {
                Ok(Passed::Next(_)) => {}
                Ok(Passed::End) => return,
                Err(_) => thread::yield_now(),
            }
        }
        unreachable!()
    }

    // Takes all entries, and ends the rings of the next node and the reader. Where there is no memory for one, the rest is let
    // go.
    pub(crate) fn run<R: Wait, G: Gate>(&mut self, rt: &R, alloc: Global, gate: &G)
        requires fresh { IsAt self.old }
        ensures same { IsSameNode self.old self.new }
        ensures through { self.new.failed ≡ false → IsThrough self.new }
    {
        if self.take_all(rt, alloc, gate).is_err() {
            self.failed = true;
            self.drain(rt);
        }
        pass_on(&mut self.next, Some(Passed::End));
        self.counts.push_reserved(Counted::End);
    }
}
