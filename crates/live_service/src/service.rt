//! The service: how it is made, how passes meet, and what they ask.

ghost use Rattle.std.specs.Prelude.{◌≡◌, ◌<◌, ◌≤◌, ◌⊎◌, Err, IfOk};
ghost use Rattle.kr_order.specs.Prefix.{IsPrefix};
ghost use Rattle.order_board.specs.Views.{shut_once_more, told_of};

use crate::behind::Behind;
use crate::{Pass, Passes, QueryStop};
use kr_order::{Asked, NoMemory, Told};
use order_board::two_copies;
use replica_lock::{MOST_SEATS, Turn, TurnStop};
use std::alloc::Global;
use std::marker::Model;
use std::sync::Wait;

/// One history, for many threads. They share it by reference, each with a pass of its own.
///
/// Contracts see a service as which one it is, and how many passes it was made with. It is not `Drop`: end it by `close` or
/// by `end`.
pub struct Service {
    pub(crate) turn: Turn<Behind>,
}

impl Model for Service {
    ghost use Rattle.live_service.specs.Views.{ServiceView};

    ghost Value = { ServiceView };

    ghost view = { λ s. record {
      id = record { table = s.turn.table; copies = s.turn.name };
      passes = s.turn.seats;
    } };
}

impl Service {
    /// A service with the empty history, and its passes, 1 to 16. `NoMemory` where there is none for them.
    pub fn new<R: Wait>(rt: &R, alloc: Global, passes: u32) -> Result<(Service, Passes), NoMemory>
        requires passes { (0 < passes) × (passes ≤ MOST_SEATS) }
        ensures service { IfOk result (λ made. made.0.passes ≡ passes) }
        ensures passes { IfOk result (λ made. made.1 ≡ record { passes = passes; left = passes; service = made.0.id }) }
    {
        let (writer, readers) = two_copies(rt, alloc, passes)?;
        match Turn::new(alloc, Behind::new(alloc, writer), passes) {
            Ok((turn, seats)) => Ok((
                Service { turn },
                Passes {
                    seats,
                    readers,
                    passes,
                    taken: 0,
                },
            )),
            Err(TurnStop::NoMemory { value }) => {
                value.end(rt);
                Err(NoMemory)
            }
        }
    }

    /// Tells a pass all that another was told of when its last command was answered. What the pass knows then begins with
    /// that, and with all that it knew; so does what each later query and command of it is told of. Where the other has no
    /// such command, nothing changes. It waits for nobody, and takes no memory.
    #[tactic(auto, using(crate::proofs::KnownLemmas::nothing_begins))]
    pub fn meet(&self, pass: &mut Pass, other: &Pass)
        requires pass { pass.old.service ≡ self.now.id }
        requires other { other.now.service ≡ self.now.id }
        ensures one { (pass.new.known ≡ pass.old.known) ⊎ (pass.new.known ≡ other.now.mark) }
        ensures own { IsPrefix pass.old.known pass.new.known }
        ensures told { IsPrefix other.now.mark pass.new.known }
        ensures rest { pass.new ≡ record pass.old { known = pass.new.known } }
    {
        if let Some(note) = &other.mark {
            pass.reader.learn(note);
        }
    }

    /// Asks how the events of each pair stand to one another after a beginning of the history that begins with all that the
    /// pass was told of and met. It waits for nobody.
    ///
    /// `Shut` only where the pass's count of shuts rose in this call, by one up to the greatest number of its type, and
    /// nothing else of the pass then changes; no schedule leads to it. `NoMemory` where there is none for the search or the
    /// answers; the pass was told of the history then.
    pub fn query(&self, pass: &mut Pass, pairs: &Asked) -> Result<Told, QueryStop>
        ensures known { IsPrefix pass.old.known pass.new.known }
        ensures ok { IfOk result (λ told. told ≡ told_of pass.new.known pairs.now) }
        ensures shut { result ≡ Err QueryStop.Shut → pass.new ≡ record pass.old { shuts = shut_once_more pass.old.shuts } }
        ensures rest { (result ≡ Err QueryStop.Shut) ⊎ (pass.new ≡ record pass.old { known = pass.new.known }) }
    {
        pass.reader.query(pairs)
    }
}
