//! The references: the live events, in rising order, each with its count.

ghost use Rattle.std.specs.Prelude.{◌≡◌, ◌<◌, ◌≤◌, ◌+◌, ◌-◌, ◌^◌, ◌==◌, ◌&&◌, nat_lt, ℕ, if◌then◌else◌, [], ◌∷◌, ◌++◌, map, OnOk, Some};
ghost use Rattle.std.specs.Prelude.{None, IfNone};
ghost use Rattle.std.specs.List.{All};
ghost use Rattle.ref_collect.specs.Counts.{count_of, AreRising};

use dep_graph::EventTable;
use kr_order::{EventId, NoMemory};
use std::alloc::Global;
use std::marker::Model;

/// The references of events.
#[derive(Debug, Drop)]
pub struct Refs {
    // the count of each live event
    counts: EventTable,
    // the last event that was born, 0 where none was
    born: u64,
}

impl Model for Refs {
    ghost use Rattle.ref_collect.specs.Counts.{RefsView, AreCounts};

    ghost Value = { RefsView };

    ghost view = { λ r. record { counts = r.counts.entries; born = r.born; spare = r.counts.spare } };

    ghost invariant = { λ r. AreCounts r.born r.counts.entries };
}

impl Refs {
    /// The references where no event was born. It takes no memory.
    pub fn new(alloc: Global) -> Self
        ensures counts { result.counts ≡ [] }
        ensures born { result.born ≡ 0 }
    {
        Refs {
            counts: EventTable::new(alloc),
            born: 0,
        }
    }

    /// Makes room for so many more events.
    pub fn reserve(&mut self, n: usize) -> Result<(), NoMemory>
        ensures spare { OnOk result (n ≤ self.new.spare) }
        ensures keeps_spare { self.old.spare ≤ self.new.spare }
        ensures counts { self.new.counts ≡ self.old.counts }
        ensures born { self.new.born ≡ self.old.born }
    {
        self.counts.reserve(n)
    }

    /// The greatest event that was ever born, be it live or dead; 0 where none was.
    pub fn born(&self) -> u64
        ensures { result ≡ self.now.born }
    {
        self.born
    }

    /// Takes in an event that has one reference and is greater than every event that was ever born, so that no dead
    /// event comes back. It takes no memory.
    pub fn birth(&mut self, id: EventId)
        requires greatest { self.old.born < id.0 }
        requires room { 1 ≤ self.old.spare }
        ensures born { self.new.born ≡ id.0 }
        ensures counts { self.new.counts ≡ self.old.counts ++ (id.0, 1) ∷ [] }
        ensures count { (event : ℕ) → count_of self.new.counts event ≡ (if event == id.0 then 1 else count_of self.old.counts event) }
        ensures spare { self.old.spare ≤ self.new.spare + 1 }
    {
        self.counts.push(id.0, 1);
        self.born = id.0;
    }

    /// How many references the event has; 0 exactly where it is not live.
    pub fn count(&self, id: EventId) -> u64
        ensures { result ≡ count_of self.now.counts id.0 }
    {
        match self.counts.get(id.0) {
            Some(count) => count,
            None => 0,
        }
    }

    // Gives a live event this count; an event with none is taken out.
    fn put(&mut self, id: EventId, count: u64)
        requires { 0 < count_of self.old.counts id.0 }
        ensures count { (event : ℕ) → count_of self.new.counts event ≡ (if event == id.0 then count else count_of self.old.counts event) }
        ensures events { 0 < count → map (λ entry. entry.0) self.new.counts ≡ map (λ entry. entry.0) self.old.counts }
        ensures below { (n : ℕ) → All (λ entry. entry.0 < n) self.old.counts → All (λ entry. entry.0 < n) self.new.counts }
        ensures born { self.new.born ≡ self.old.born }
        ensures spare { self.new.spare ≡ self.old.spare }
    {
        if count > 0 {
            self.counts.set(id.0, count);
        } else {
            self.counts.remove(id.0);
        }
    }

    /// Gives a live event one more reference: its new count. `None` exactly where the event is not live, and then
    /// nothing changes. It takes no memory.
    pub fn acquire(&mut self, id: EventId) -> Option<u64>
        requires { count_of self.old.counts id.0 + 1 < 2 ^ 64 }
        ensures value { result ≡ (if nat_lt 0 (count_of self.old.counts id.0) then Some (count_of self.old.counts id.0 + 1) else None) }
        ensures count { (event : ℕ) → count_of self.new.counts event
            ≡ (if event == id.0 && nat_lt 0 (count_of self.old.counts event) then count_of self.old.counts event + 1
            else count_of self.old.counts event) }
        ensures events { map (λ entry. entry.0) self.new.counts ≡ map (λ entry. entry.0) self.old.counts }
        ensures none { IfNone result (self.new ≡ self.old) }
        ensures born { self.new.born ≡ self.old.born }
        ensures spare { self.new.spare ≡ self.old.spare }
    {
        let count = self.count(id);
        if count == 0 {
            return None;
        }
        self.put(id, count + 1);
        Some(count + 1)
    }

    /// Takes one reference from a live event: its new count. `None` exactly where the event is not live, and then
    /// nothing changes. An event that has no reference left is dead for good. It takes no memory.
    pub fn release(&mut self, id: EventId) -> Option<u64>
        ensures value { result ≡ (if nat_lt 0 (count_of self.old.counts id.0) then Some (count_of self.old.counts id.0 - 1) else None) }
        ensures count { (event : ℕ) → count_of self.new.counts event
            ≡ (if event == id.0 then count_of self.old.counts event - 1 else count_of self.old.counts event) }
        ensures below { (n : ℕ) → All (λ entry. entry.0 < n) self.old.counts → All (λ entry. entry.0 < n) self.new.counts }
        ensures none { IfNone result (self.new ≡ self.old) }
        ensures born { self.new.born ≡ self.old.born }
        ensures spare { self.new.spare ≡ self.old.spare }
    {
        let left = self.count(id).checked_sub(1)?;
        self.put(id, left);
        Some(left)
    }

    /// A proof step, which does nothing when it runs: the events rise, each has a reference, and none is greater than
    /// the last that was born.
    pub fn recall_counts(&self)
        ensures rising { AreRising self.now.counts }
        ensures live { All (λ entry. 0 < entry.1) self.now.counts }
        ensures latest { All (λ entry. entry.0 ≤ self.now.born) self.now.counts }
    {
        self.counts.recall_rising();
    }
}
