//! The log, and the table of the clients' highest sequence numbers beside it.

ghost use Rattle.std.specs.Prelude.{◌≡◌, ◌<◌, ◌≤◌, ◌+◌, ◌-◌, ◌^◌, [], ◌∷◌, ◌++◌, length, take, drop, IfOk, OnOk, OnErr};
ghost use Rattle.std.specs.HashMap.{spare};
ghost use Rattle.kr_order.specs.History.{highest_seq};
ghost use Rattle.cmd_log.specs.Places.{entry_at};
ghost use Rattle.cmd_log.specs.Table.{seq_for, IsTold};

use kr_order::{ClientId, Copied, Entries, Entry, NoMemory};
use std::alloc::Global;
use std::collections::HashMap;
use std::marker::Model;

// A log never has more entries than this: there is no memory for so many.
const LOG_LIMIT: usize = 1 << 58;

/// Entries at the places from 1 on.
#[derive(Debug, Drop)]
pub struct Log {
    entries: Vec<Entry>,
    // a client's highest sequence number in the log, by the client's number
    highest: HashMap<u32, u64>,
}

impl Model for Log {
    ghost use Rattle.std.specs.Prelude.{List};
    ghost use Rattle.kr_order.specs.declared.history.Entry.{Entry};
    ghost use Rattle.cmd_log.specs.Table.{IsTabled};

    ghost Value = { List Entry };

    ghost view = { λ log. log.entries.items };

    ghost invariant = { λ log. IsTabled log.entries.items log.highest };
}

// Copies of all these entries.
fn copies(alloc: Global, entries: &[Entry]) -> Result<Vec<Entry>, NoMemory>
    ensures { IfOk result (λ copies. copies.items ≡ entries.now) }
{
    let mut copies = Vec::new(alloc);
    for entry in entries {
        copies.push(entry.copy(alloc)?)?;
    }
    Ok(copies)
}

// The sequence number that the table has for the client; 0 where it has none.
fn seq_in(table: &HashMap<u32, u64>, client: ClientId) -> u64
    ensures { result ≡ seq_for table.now client.0 }
{
    match table.get(&client.0) {
        Some(seq) => *seq,
        None => 0,
    }
}

// The table is told of one more entry. It has room for it.
fn tell(table: &mut HashMap<u32, u64>, entry: &Entry)
    requires { 0 < spare table.old }
    ensures told { IsTold (entry.now ∷ []) table.old table.new }
    ensures spare { spare table.old ≤ spare table.new + 1 }
{
    let highest = seq_in(table, entry.client).max(entry.seq);
    let inserted: Result<_, _> = table.insert(entry.client.0, highest);
    let _ = inserted.unwrap();
}

// The table is told of these entries. It has room for all of them.
fn tell_all(table: &mut HashMap<u32, u64>, entries: &[Entry])
    requires { length entries.now ≤ spare table.old }
    ensures { IsTold entries.now table.old table.new }
{
    for entry in entries {
        tell(table, entry);
    }
}

impl Log {
    /// The log without entries. It takes no memory.
    pub fn new(alloc: Global) -> Self
        ensures { result ≡ [] }
    {
        Log {
            entries: Vec::new(alloc),
            highest: HashMap::new(alloc),
        }
    }

    /// Puts the entry at the next place. After `NoMemory` the log is as before, and the entry is dropped.
    pub fn push(&mut self, entry: Entry) -> Result<(), NoMemory>
        ensures ok { OnOk result (self.new ≡ self.old ++ entry ∷ []) }
        ensures err { OnErr result (self.new ≡ self.old) }
    {
        if self.entries.len() >= LOG_LIMIT {
            return Err(NoMemory);
        }
        let highest = self.highest_seq(entry.client).max(entry.seq);
        self.entries.reserve(1)?;
        let _ = self.highest.insert(entry.client.0, highest)?;
        self.entries.push_reserved(entry);
        Ok(())
    }

    /// Puts copies of these entries at the end, in their order. After `NoMemory` the log is as before.
    pub fn push_all(&mut self, entries: &[Entry]) -> Result<(), NoMemory>
        ensures ok { OnOk result (self.new ≡ self.old ++ entries.now) }
        ensures err { OnErr result (self.new ≡ self.old) }
    {
        if entries.len() > LOG_LIMIT - self.entries.len() {
            return Err(NoMemory);
        }
        let alloc = *self.entries.allocator();
        let mut copies = copies(alloc, entries)?;
        self.highest.reserve(entries.len())?;
        self.entries.append(&mut copies)?;
        tell_all(&mut self.highest, entries);
        Ok(())
    }

    /// A copy of the entry at a place; `None` exactly where the place is past the last one, or not past the base.
    pub fn get(&self, place: u64) -> Result<Option<Entry>, NoMemory>
        ensures { IfOk result (λ found. found ≡ entry_at self.now place) }
    {
        if place == 0 {
            return Ok(None);
        }
        match self.entries.get((place - 1) as usize) {
            Some(entry) => {
                let alloc = *self.entries.allocator();
                Ok(Some(entry.copy(alloc)?))
            }
            None => Ok(None),
        }
    }

    /// The last place that has an entry; 0 where none has.
    pub fn len(&self) -> u64
        ensures value { result ≡ length self.now }
        ensures small { result ≤ 2 ^ 58 }
    {
        self.entries.len() as u64
    }

    /// How many places from the first on were let go: none, so the first place that has an entry is 1.
    pub fn base(&self) -> u64
        ensures { result ≡ 0 }
    {
        0
    }

    /// The greatest sequence number of the client's entries; 0 where the log has none of the client.
    pub fn highest_seq(&self, client: ClientId) -> u64
        ensures { result ≡ highest_seq client self.now }
    {
        seq_in(&self.highest, client)
    }

    /// Copies of the entries at the places `from`, `from + 1`, .., at most so many of them.
    pub fn suffix(&self, from: u64, most: usize) -> Result<Entries, NoMemory>
        requires { 1 ≤ from }
        ensures { IfOk result (λ entries. entries ≡ take most (drop (from - 1) self.now)) }
    {
        let alloc = *self.entries.allocator();
        let start = ((from - 1) as usize).min(self.entries.len());
        let behind = self.entries.as_slice().split_at(start).1;
        let count = most.min(behind.len());
        let copies = copies(alloc, behind.split_at(count).0)?;
        Ok(Entries::from_vec(copies))
    }
}
