//! Readers of the published list.

ghost use Rattle.std.specs.Prelude.{◌≡◌, ◌↔◌, ◌-◌, ◌⊎◌, ℕ, Err, length, IsNone, IfOk, OnOk, OnErr, IfSome};
ghost use Rattle.kr_order.specs.Prefix.{IsPrefix};
ghost use Rattle.order_board.specs.Views.{fresh_reader, shut_once_more, told_of};

use crate::asking::told;
use crate::{Door, Note, Shut};
use core::mem::replace_with;
use kr_order::{Asked, NoMemory, Told};
use reach::Scratch;
use std::alloc::Global;
use std::marker::Model;
use thiserror::Error;

/// Why a query has no answer.
#[derive(Clone, Copy, Debug, PartialEq, Eq, Error)]
pub enum QueryStop {
    /// No copy could be entered.
    #[error("no copy of the order could be entered")]
    Shut,
    /// There was no memory for the search or the answers.
    #[error("out of memory")]
    NoMemory,
}

/// What asks the published copy, beside the writer and other readers. It belongs to one thread at a time.
///
/// Contracts see a reader as the beginning of the published list that it saw or learnt, with how often it was shut out
/// and the identity of the copies.
#[derive(Drop)]
pub struct BoardReader {
    alloc: Global,
    door: Door,
    // for the searches of its queries
    scratch: Scratch,
}

impl Model for BoardReader {
    ghost use Rattle.order_board.specs.Views.{ReaderView};

    ghost Value = { ReaderView };

    ghost view = { λ r. r.door };
}

impl BoardReader {
    /// A reader that goes by this door. It takes no memory.
    pub fn new(alloc: Global, door: Door) -> BoardReader
        ensures { result ≡ door }
    {
        BoardReader {
            alloc,
            door,
            scratch: Scratch::new(alloc),
        }
    }

    /// The reader's door, for who reads the state itself.
    pub fn into_door(self) -> Door
        ensures { result ≡ self }
    {
        let BoardReader {
            alloc: _,
            door,
            scratch: _,
        } = self;
        door
    }

    // Asks these pairs; the reader comes back with what it is told.
    fn ask(self, pairs: &Asked) -> (BoardReader, Result<Told, QueryStop>)
        ensures list { IsPrefix self.list result.0.list }
        ensures ok { IfOk result.1 (λ told. told ≡ told_of result.0.list pairs.now) }
        ensures shut { result.1 ≡ Err QueryStop.Shut → result.0 ≡ record self { shuts = shut_once_more self.shuts } }
        ensures rest { (result.1 ≡ Err QueryStop.Shut) ⊎ (result.0 ≡ record self { list = result.0.list }) }
    {
        let BoardReader {
            alloc,
            door,
            mut scratch,
        } = self;
        let (door, told) = match door.enter() {
            Err(Shut { door }) => (door, Err(QueryStop::Shut)),
            Ok(opened) => match told(alloc, opened.state(), &mut scratch, pairs) {
                Ok(told) => (opened.leave(), Ok(told)),
                Err(NoMemory) => (opened.leave(), Err(QueryStop::NoMemory)),
            },
        };
        let reader = BoardReader {
            alloc,
            door,
            scratch,
        };
        (reader, told)
    }

    /// Asks how the events of each pair stand to one another after the list that is published now, which begins with all
    /// that this reader saw and learnt. It waits for nobody.
    ///
    /// `Shut` only where the reader's count of shuts rose in this call, by one up to the greatest number of its type, and
    /// nothing else of the reader then changes (`Door::enter` says when). `NoMemory` where there is none for the search or
    /// the answers; the reader saw the list then.
    pub fn query(&mut self, pairs: &Asked) -> Result<Told, QueryStop>
        ensures list { IsPrefix self.old.list self.new.list }
        ensures ok { IfOk result (λ told. told ≡ told_of self.new.list pairs.now) }
        ensures shut { result ≡ Err QueryStop.Shut → self.new ≡ record self.old { shuts = shut_once_more self.old.shuts } }
        ensures rest { (result ≡ Err QueryStop.Shut) ⊎ (self.new ≡ record self.old { list = self.new.list }) }
    {
        replace_with(self, pairs, BoardReader::ask)
    }

    /// Takes in what a note tells. Both lists begin the new one, which is the longer of them, and the list of each later
    /// query begins with it. It waits for nobody and takes no memory, and the note can be learnt again.
    pub fn learn(&mut self, note: &Note)
        requires { note.now.copies ≡ self.old.copies }
        ensures one { (self.new.list ≡ self.old.list) ⊎ (self.new.list ≡ note.now.list) }
        ensures own { IsPrefix self.old.list self.new.list }
        ensures told { IsPrefix note.now.list self.new.list }
        ensures rest { self.new ≡ record self.old { list = self.new.list } }
    {
        self.door.learn(note);
    }

    /// How many entries this reader saw or learnt.
    pub fn seen(&self) -> u64
        ensures { result ≡ length self.now.list }
    {
        self.door.seen()
    }

    /// How often this reader was shut out; it stands still at the greatest number of its type.
    pub fn shuts(&self) -> u64
        ensures { result ≡ self.now.shuts }
    {
        self.door.shuts()
    }
}

/// The readers of two copies that are still to be taken.
#[derive(Drop)]
pub struct Readers {
    pub(crate) readers: Vec<BoardReader>,
    // the empty list of the copies
    pub(crate) none: Note,
}

impl Model for Readers {
    ghost use Rattle.std.specs.Prelude.{◌≡◌, vec_len, All};
    ghost use Rattle.order_board.specs.Views.{ReadersView, fresh_reader};

    ghost Value = { ReadersView };

    ghost view = { λ r. record { left = vec_len r.readers; copies = r.none.copies } };

    ghost invariant = { λ r. All (λ reader. reader ≡ fresh_reader r.none.copies) r.readers.items };
}

impl Readers {
    /// A reader that saw nothing yet. `None` exactly where all were taken.
    pub fn take(&mut self) -> Option<BoardReader>
        ensures some { IfSome result (λ reader. reader ≡ fresh_reader self.old.copies) }
        ensures none { IsNone result ↔ (self.old.left ≡ 0) }
        ensures left { self.new ≡ record self.old { left = self.old.left - 1 } }
    {
        self.readers.pop()
    }
}
