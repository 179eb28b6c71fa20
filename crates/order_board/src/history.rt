//! The one history behind the copies, and its beginnings. For the proofs alone, but for the lengths.

ghost use Rattle.std.specs.Prelude.{◌≡◌, ◌<◌, ◌^◌, ◌⊎◌, [], length, IfSome, MatchBool};
ghost use Rattle.kr_order.specs.Prefix.{IsPrefix};
ghost use Rattle.order_board.specs.Log.{head_of};
ghost use Rattle.order_board.specs.Views.{with_entry};

use kr_order::Entry;
use logbook::{Gain, Offer, Plain, Play, Rule, Seen, Start, Word};
use std::marker::Model;

// The rule of the log: the head counts its entries.
pub struct Law;

impl Rule<Entry, u64> for Law {
    ghost use Rattle.std.specs.Prelude.{[]};
    ghost use base.Fml.{ftrue};
    ghost use Rattle.order_board.specs.Log.{IsCounted};

    ghost holds = { λ cells log. IsCounted cells log };

    ghost first = { [] };

    ghost hinted = { λ n log. Unit {0} };

    ghost shows = { λ log. [] };

    ghost keeps = { λ names log. ftrue };

    ghost moves = { λ ask before after answer. Unit {0} };
}

// Nothing is traded for an entry.
pub struct Nothing;

impl Gain<Entry, u64> for Nothing {
    ghost use base.Fml.{ftrue};

    ghost after = { λ names about answer. ftrue };
}

// An entry is put at the end of the log.
pub struct Grow;

impl Play<Entry, u64> for Grow {
    ghost use Rattle.order_board.specs.Log.{Grows};

    ghost then = { Grows };
}

impl Plain<Entry, Entry, u64> for Grow {
    ghost use Rattle.std.specs.Prelude.{None};

    ghost ask = { λ entry. entry };

    ghost state = { λ entry. None };
}

// A beginning of the log that was seen. It has no bytes.
pub type Front = Seen<Entry, u64, Law>;

type Head = Word<Entry, u64, Law>;

/// A beginning of the published history, which a writer tells and readers learn.
///
/// Contracts see a note as this list of entries, with the identity of the copies. It can be learnt more than once.
#[derive(Drop)]
pub struct Note {
    front: Front,
    count: u64,
}

impl Model for Note {
    ghost use Rattle.std.specs.Prelude.{◌≡◌, length};
    ghost use Rattle.order_board.specs.Views.{NoteView};

    ghost Value = { NoteView };

    ghost view = { λ n. record { list = n.front.log; copies = n.front.book } };

    ghost invariant = { λ n. n.count ≡ length n.front.log };
}

impl Note {
    /// How many entries the note tells of.
    pub fn entry(&self) -> u64
        ensures { result ≡ length self.now.list }
    {
        self.count
    }

    // The note of a beginning with so many entries.
    pub(crate) fn of(front: Front, count: u64) -> Note
        requires { count ≡ length front.log }
        ensures { result ≡ record { list = front.log; copies = front.book } }
    {
        Note { front, count }
    }

    // Another of the same beginning.
    pub(crate) fn again(&self) -> Note
        ensures { result ≡ self.now }
    {
        Note {
            front: self.front.again(),
            count: self.count,
        }
    }

    // The beginning that it tells of.
    pub(crate) fn front(&self) -> Front
        ensures list { result.log ≡ self.now.list }
        ensures copies { result.book ≡ self.now.copies }
    {
        self.front.again()
    }

    // Whether the other begins with this one; where it does not, this one begins with the other.
    pub(crate) fn begins(&self, other: &Note) -> bool
        requires { other.now.copies ≡ self.now.copies }
        ensures { MatchBool result (IsPrefix self.now.list other.now.list) (IsPrefix other.now.list self.now.list) }
    {
        let mut both = self.front.again();
        both.learn(&other.front);
        self.count <= other.count
    }

    // The longer of both beginnings, which the other begins.
    pub(crate) fn longer(&self, other: &Note) -> Note
        requires { other.now.copies ≡ self.now.copies }
        ensures one { (result ≡ self.now) ⊎ (result ≡ other.now) }
        ensures this { IsPrefix self.now.list result.list }
        ensures that { IsPrefix other.now.list result.list }
    {
        if self.begins(other) {
            other.again()
        } else {
            self.again()
        }
    }

    // The beginning with one entry more, where it is all of the log that this is the head of. `None` where the log is
    // longer.
    fn next(&self, head: &Head, entry: &Entry) -> Option<Note>
        requires head { head.now ≡ head_of self.now.copies }
        requires few { length self.now.list < 2 ^ 58 }
        ensures { IfSome result (λ note. note ≡ with_entry self.now entry.now) }
    {
        let mut front = self.front.again();
        let count = self.count;
        let mut offer: Offer<Entry, u64, Law, Nothing> = front.plain::<Nothing, Entry, Grow>(entry);
        let mut pen = front.no_pen();
        let found = head.compare_exchange::<Grow, Nothing>(
            count,
            count + 1,
            &mut front,
            &mut offer,
            &mut pen,
        );
        if found != count {
            return None;
        }
        Some(Note {
            front,
            count: count + 1,
        })
    }
}

// The log's head, and all of the log that was published.
//
// Contracts see it as that list, with the identity of the copies.
#[derive(Drop)]
pub(crate) struct History {
    head: Head,
    known: Note,
}

impl Model for History {
    ghost use Rattle.std.specs.Prelude.{◌≡◌};
    ghost use Rattle.order_board.specs.Views.{NoteView};
    ghost use Rattle.order_board.specs.Log.{head_of};

    ghost Value = { NoteView };

    ghost view = { λ h. h.known };

    ghost invariant = { λ h. h.head ≡ head_of h.known.copies };
}

impl History {
    // The empty history of new copies.
    pub(crate) fn new() -> History
        ensures { result.list ≡ [] }
    {
        let (front, mut first, _second) = Seen::open(Start::alone(), 0, 0);
        History {
            head: Word::tracked(0, &mut first),
            known: Note { front, count: 0 },
        }
    }

    // All of it.
    pub(crate) fn known(&self) -> &Note
        ensures { result.now ≡ self.now }
    {
        &self.known
    }

    // The history with one entry more, which nobody is told of yet. `None` where the log is longer, which no one made it.
    pub(crate) fn next(&self, entry: &Entry) -> Option<Note>
        requires { length self.now.list < 2 ^ 58 }
        ensures { IfSome result (λ note. note ≡ with_entry self.now entry.now) }
    {
        self.known.next(&self.head, entry)
    }

    // The history is what the note tells.
    pub(crate) fn publish(&mut self, note: Note)
        requires { note.copies ≡ self.old.copies }
        ensures { self.new ≡ note }
    {
        self.known = note;
    }
}
