//! What lies behind the turn: the writer of the copies, and the journal.

ghost use Rattle.std.specs.Prelude.{◌≡◌, ◌<◌, ◌+◌, ◌^◌, ◌∷◌, ◌++◌, ◌⊎◌, [], true, false, length, IfOk, OnOk, OnErr};
ghost use Rattle.kr_order.specs.Done.{done_of};
ghost use Rattle.live_service.specs.Commands.{placed_after};

use crate::CopiesName;
use crate::reply::{room_for, twin_of};
use kr_order::{DoneEntry, DoneList, Entry, NoMemory, Placed};
use order_board::{BoardWriter, Note};
use replica_lock::Held;
use std::alloc::Global;
use std::marker::Model;
use std::sync::Wait;

// The history: its copies, and each entry with its place and reply. Contracts see it as the list of its entries.
pub struct Behind {
    alloc: Global,
    writer: BoardWriter,
    journal: Vec<DoneEntry>,
    failed: bool,
}

impl Model for Behind {
    ghost use Rattle.std.specs.Prelude.{◌≡◌};
    ghost use Rattle.kr_order.specs.Done.{done_of};
    ghost use Rattle.live_service.specs.Views.{BehindView};

    ghost Value = { BehindView };

    ghost view = { λ b. record { list = b.writer.list; failed = b.failed; copies = b.writer.copies } };

    ghost invariant = { λ b. b.journal.items ≡ done_of b.writer.list };
}

impl Held for Behind {
    ghost use Rattle.std.specs.Prelude.{length};
    ghost use Rattle.live_service.specs.Views.{named};

    type Name = CopiesName;

    ghost name_of = { λ b. named b.copies };

    ghost count_of = { λ b. length b.list };

    ghost nowhere = { record { number = 0; log_name = 0; cells_name = 0 } };

    fn count(&self) -> u64 {
        self.writer.count()
    }
}

impl Behind {
    // The empty history of new copies.
    pub(crate) fn new(alloc: Global, writer: BoardWriter) -> Behind
        requires { writer.list ≡ [] }
        ensures { result ≡ record { list = []; failed = false; copies = writer.copies } }
    {
        Behind {
            alloc,
            writer,
            journal: Vec::new(alloc),
            failed: false,
        }
    }

    // A note of the history.
    pub(crate) fn tell(&self) -> Note
        ensures { result ≡ record { list = self.now.list; copies = self.now.copies } }
    {
        self.writer.tell()
    }

    // Puts an entry at the end. After `NoMemory` the history is as before, and nothing is added to it any more.
    pub(crate) fn add<R: Wait>(&mut self, rt: &R, entry: Entry) -> Result<Placed, NoMemory>
        requires { length self.old.list < 2 ^ 58 }
        ensures list { OnOk result (self.new ≡ record self.old { list = self.old.list ++ entry ∷ [] }) }
        ensures placed { IfOk result (λ placed. placed ≡ placed_after self.old.list entry) }
        ensures err { OnErr result (self.new ≡ record self.old { failed = true }) }
        ensures failed { OnOk result (self.old.failed ≡ false) }
        ensures copies { self.new.copies ≡ self.old.copies }
        ensures count { (length self.new.list ≡ length self.old.list) ⊎ (length self.new.list ≡ length self.old.list + 1) }
    {
        if self.failed {
            return Err(NoMemory);
        }
        self.failed = true;
        self.journal.reserve(1)?;
        let room = room_for(self.alloc, &entry.command)?;
        let reply = self.writer.apply(rt, &entry)?;
        let place = self.writer.count();
        let told = twin_of(&reply, room);
        self.journal.push_reserved(DoneEntry {
            place,
            entry,
            reply,
        });
        self.failed = false;
        Ok(Placed { place, reply: told })
    }

    // Ends the copies. What is left is the journal.
    pub(crate) fn end<R: Wait>(self, rt: &R) -> DoneList
        ensures { result ≡ done_of self.list }
    {
        let Behind {
            alloc: _,
            writer,
            journal,
            failed: _,
        } = self;
        writer.end(rt);
        DoneList::from_vec(journal)
    }
}
