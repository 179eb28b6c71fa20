//! A door into the published copy, for who reads a state itself.

ghost use Rattle.std.specs.Prelude.{◌≡◌, ◌⊎◌, length, IfOk, IfErr};
ghost use Rattle.kr_order.specs.Prefix.{IsPrefix};
ghost use Rattle.order_board.specs.Views.{shut_once_more};
ghost use Rattle.order_board.specs.Copies.{IsOf};
ghost use Rattle.left_right.specs.Sides.{view as sight_of};

use crate::Note;
use crate::rule::{CopyReader, CopyReading, Show};
use order_state::State;
use std::marker::Model;

/// A reader's way into the copy that is published.
///
/// Contracts see a door as the beginning of the published list that was seen through it or learnt, with how often it was
/// shut and the identity of the copies.
#[derive(Drop)]
pub struct Door {
    reader: CopyReader,
    known: Note,
    shuts: u64,
}

impl Model for Door {
    ghost use Rattle.order_board.specs.Views.{ReaderView};
    ghost use Rattle.order_board.specs.Copies.{IsOf};
    ghost use Rattle.left_right.specs.Sides.{view as sight_of};

    ghost Value = { ReaderView };

    ghost view = { λ d. record { list = d.known.list; shuts = d.shuts; copies = d.known.copies } };

    ghost invariant = { λ d. IsOf d.known.copies (sight_of d.reader.place) };
}

/// The published copy, while it is read. The writer cannot take this copy before it is left, and may publish the other.
///
/// It is not `Drop`: end it by `leave`. Contracts see it as the door that it was entered by, with the list of this copy.
pub struct Opened {
    reading: CopyReading,
    found: Note,
    shuts: u64,
}

impl Model for Opened {
    ghost use Rattle.std.specs.Prelude.{◌≡◌};
    ghost use Rattle.order_board.specs.Views.{ReaderView};
    ghost use Rattle.order_board.specs.Copies.{IsOf};
    ghost use Rattle.left_right.specs.Sides.{view as sight_of};

    ghost Value = { ReaderView };

    ghost view = { λ o. record { list = o.found.list; shuts = o.shuts; copies = o.found.copies } };

    ghost invariant = { λ o. (o.reading.part.value.state.history ≡ o.found.list) × IsOf o.found.copies (sight_of o.reading.place) };
}

/// No copy could be entered. The door comes back, and its count of shuts has risen.
#[derive(Drop)]
pub struct Shut {
    pub door: Door,
}

impl Door {
    // The door of a reader that was told of the copies, and has seen nothing of them.
    pub(crate) fn new(reader: CopyReader, known: Note) -> Door
        requires { IsOf known.copies (sight_of reader.place) }
        ensures { result ≡ record { list = known.list; shuts = 0; copies = known.copies } }
    {
        Door {
            reader,
            known,
            shuts: 0,
        }
    }

    // The door, shut once more.
    fn shut(reader: CopyReader, known: Note, shuts: u64) -> Shut
        requires { IsOf known.copies (sight_of reader.place) }
        ensures { result.door ≡ record { list = known.list; shuts = shut_once_more shuts; copies = known.copies } }
    {
        Shut {
            door: Door {
                reader,
                known,
                shuts: shuts.saturating_add(1),
            },
        }
    }

    /// Enters the copy that is published: its list begins with all that was seen through this door, and learnt. It waits for
    /// nobody. `Shut` only where the count of shuts rose in this call, by one up to the greatest number of its type, and
    /// nothing else of the door then changes: the writer has ended, or the copy has fewer entries than were seen or learnt,
    /// which no schedule leads to.
    pub fn enter(self) -> Result<Opened, Shut>
        ensures list { IfOk result (λ opened. IsPrefix self.list opened.list) }
        ensures opened { IfOk result (λ opened. opened ≡ record self { list = opened.list }) }
        ensures shut { IfErr result (λ shut. shut.door ≡ record self { shuts = shut_once_more self.shuts }) }
    {
        let Door {
            reader,
            known,
            shuts,
        } = self;
        let reading = match reader.enter_as::<Show>() {
            Ok(reading) => reading,
            Err(reader) => return Err(Door::shut(reader, known, shuts)),
        };
        let found = reading.get().note();
        if !known.begins(&found) {
            return Err(Door::shut(reading.leave(), known, shuts));
        }
        Ok(Opened {
            reading,
            found,
            shuts,
        })
    }

    /// Takes in what a note tells. Both lists begin the new one, which is the longer of them. It waits for nobody and takes
    /// no memory, and the note can be learnt again.
    pub fn learn(&mut self, note: &Note)
        requires { note.now.copies ≡ self.old.copies }
        ensures one { (self.new.list ≡ self.old.list) ⊎ (self.new.list ≡ note.now.list) }
        ensures own { IsPrefix self.old.list self.new.list }
        ensures told { IsPrefix note.now.list self.new.list }
        ensures rest { self.new ≡ record self.old { list = self.new.list } }
    {
        self.known = self.known.longer(note);
    }

    /// How many entries were seen or learnt.
    pub fn seen(&self) -> u64
        ensures { result ≡ length self.now.list }
    {
        self.known.entry()
    }

    /// How often the door was shut; it stands still at the greatest number of its type.
    pub fn shuts(&self) -> u64
        ensures { result ≡ self.now.shuts }
    {
        self.shuts
    }
}

impl Opened {
    /// The state that the copy stands for.
    pub fn state(&self) -> &State
        ensures { result.now.history ≡ self.now.list }
    {
        &self.reading.get().state
    }

    /// Leaves the copy, so that the writer can change it. The door comes back, which has seen the copy's list.
    pub fn leave(self) -> Door
        ensures { result ≡ self }
    {
        let Opened {
            reading,
            found,
            shuts,
        } = self;
        Door {
            reader: reading.leave(),
            known: found,
            shuts,
        }
    }
}
