//! The writer of the two copies, and how they are made.

ghost use Rattle.std.specs.Prelude.{◌≡◌, ◌^◌, ◌<◌, ◌∷◌, ◌++◌, [], true, false, length, IfOk, OnOk, OnErr};
ghost use Rattle.kr_order.specs.Reply.{reply_to};
ghost use Rattle.order_board.specs.Views.{fresh_reader};

use crate::copies::Growth;
use crate::history::History;
use crate::publishing::{make, publish, reader_of};
use crate::rule::CopyWriter;
use crate::{BoardReader, Door, Note, Readers};
use core::mem::replace_with;
use kr_order::{Copied, Entry, NoMemory, Reply};
use order_state::State;
use std::alloc::Global;
use std::marker::Model;
use std::sync::Wait;

/// What puts entries into the two copies. There is one for them.
///
/// Contracts see a writer as the published list, with whether one of its calls has found no memory and the identity of
/// the copies. It is not `Drop`: end it by `end`. It can be lent to a thread, and not moved into one.
pub struct BoardWriter {
    alloc: Global,
    copies: CopyWriter,
    // the history once more, in which each entry is prepared before it is published
    own: State,
    history: History,
    failed: bool,
}

impl Model for BoardWriter {
    ghost use Rattle.std.specs.Prelude.{drop};
    ghost use Rattle.left_right.specs.Sides.{view as sight_of};
    ghost use Rattle.order_board.specs.Views.{WriterView};
    ghost use Rattle.order_board.specs.Copies.{IsWriter};

    ghost Value = { WriterView };

    ghost view = { λ w. record {
      list = w.copies.desk.shown.value.state.history;
      failed = w.failed;
      copies = w.history.copies;
    } };

    ghost invariant = { λ w. IsWriter
        w.copies.desk.shown.value (sight_of w.copies.desk.place) (drop w.copies.behind w.copies.log.items)
        w.history w.own.history w.failed };
}

impl BoardWriter {
    // A writer of new copies, and none of its readers yet.
    fn new<R: Wait>(rt: &R, alloc: Global, readers: u32) -> Result<BoardWriter, NoMemory>
        requires { 0 < readers }
        ensures list { IfOk result (λ writer. writer.list ≡ []) }
        ensures failed { IfOk result (λ writer. writer.failed ≡ false) }
    {
        let history = History::new();
        let copies = make(rt, alloc, history.known().front(), readers)?;
        Ok(BoardWriter {
            alloc,
            copies,
            own: State::new(alloc),
            history,
            failed: false,
        })
    }

    // One reader more, if there is room for it.
    fn reader(&mut self) -> Result<BoardReader, NoMemory>
        requires { self.old.list ≡ [] }
        ensures reader { IfOk result (λ reader. reader ≡ fresh_reader self.old.copies) }
        ensures same { self.new ≡ self.old }
    {
        let reader = reader_of(&mut self.copies)?;
        let door = Door::new(reader, self.tell());
        Ok(BoardReader::new(self.alloc, door))
    }

    // The next entry, with the log that it ends, and the note of this.
    fn grow(&self, entry: &Entry) -> Result<(Growth, Note), NoMemory>
        requires { length self.now.list < 2 ^ 58 }
        ensures entry { IfOk result (λ grown. grown.0.entry ≡ entry.now) }
        ensures log { IfOk result (λ grown. grown.0.seen.log ≡ self.now.list ++ entry.now ∷ []) }
        ensures copies { IfOk result (λ grown. grown.0.seen.book ≡ self.now.copies) }
        ensures note { IfOk result (λ grown. grown.1 ≡ record { list = self.now.list ++ entry.now ∷ []; copies = self.now.copies }) }
    {
        let entry = entry.copy(self.alloc)?;
        let Some(note) = self.history.next(&entry) else {
            return Err(NoMemory);
        };
        let seen = note.front();
        Ok((Growth { entry, seen }, note))
    }

    /// Puts the entry at the end of the published list, and gives its reply. It waits for the readers that are still in the
    /// copy that is not published, and for no others. After `NoMemory`, which comes where there is none for the entry or
    /// a call before has found none, the published list is as before, and each later call answers `NoMemory`.
    pub fn apply<R: Wait>(&mut self, rt: &R, entry: &Entry) -> Result<Reply, NoMemory>
        requires { length self.old.list < 2 ^ 58 }
        ensures list { OnOk result (self.new ≡ record self.old { list = self.old.list ++ entry.now ∷ [] }) }
        ensures reply { IfOk result (λ reply. reply ≡ reply_to self.old.list entry.now.command) }
        ensures err { OnErr result (self.new ≡ record self.old { failed = true }) }
        ensures failed { OnOk result (self.old.failed ≡ false) }
    {
        if self.failed {
            return Err(NoMemory);
        }
        self.failed = true;
        let prepared = self.own.prepare(entry)?;
        let (growth, note) = self.grow(entry)?;
        replace_with(&mut self.copies, (rt, growth), publish::<R>)?;
        let reply = self.own.apply(prepared);
        self.history.publish(note);
        self.failed = false;
        Ok(reply)
    }

    /// A note of the published list. It takes no memory.
    pub fn tell(&self) -> Note
        ensures { result ≡ record { list = self.now.list; copies = self.now.copies } }
    {
        self.history.known().again()
    }

    /// How many entries the published list has.
    pub fn count(&self) -> u64
        ensures { result ≡ length self.now.list }
    {
        self.own.count()
    }

    /// Uses the writer up. It waits for the readers that are still in a copy; a query after that is `Shut`.
    pub fn end<R: Wait>(self, rt: &R) {
        let BoardWriter {
            alloc: _,
            copies,
            own: _,
            history: _,
            failed: _,
        } = self;
        copies.take(rt);
    }
}

// So many readers of the copies.
fn readers_of(writer: &mut BoardWriter, count: u32) -> Result<Readers, NoMemory>
    requires { writer.old.list ≡ [] }
    ensures readers { IfOk result (λ readers. readers ≡ record { left = count; copies = writer.old.copies }) }
    ensures same { writer.new ≡ writer.old }
{
    let mut readers = Vec::new(writer.alloc);
    for _ in 0..count {
        readers.push(writer.reader()?)?;
    }
    Ok(Readers {
        readers,
        none: writer.tell(),
    })
}

/// Two copies of the empty order, with their writer and so many readers, at least one. `NoMemory` where there is none for
/// them.
pub fn two_copies<R: Wait>(
    rt: &R,
    alloc: Global,
    readers: u32,
) -> Result<(BoardWriter, Readers), NoMemory>
    requires { 0 < readers }
    ensures list { IfOk result (λ made. made.0.list ≡ []) }
    ensures failed { IfOk result (λ made. made.0.failed ≡ false) }
    ensures readers { IfOk result (λ made. made.1 ≡ record { left = readers; copies = made.0.copies }) }
{
    let mut writer = BoardWriter::new(rt, alloc, readers)?;
    match readers_of(&mut writer, readers) {
        Ok(readers) => Ok((writer, readers)),
        Err(NoMemory) => {
            writer.end(rt);
            Err(NoMemory)
        }
    }
}
