//! The parts of a cluster: the manager, the nodes, every packet that was sent, and the journal of the
//! history.

ghost use Rattle.std.specs.Prelude.{◌≡◌, OnOk, None};
ghost use Rattle.cluster_parts.specs.PartsStanding.{noted};

use crate::bag::Bag;
use chain_manager::Manager;
use chain_server::Server;
use client_session::Client;
use kr_order::{ClientId, Copied, DoneList, NoMemory, ToldReply};
use kr_world::{Refusal, Shown};
use order_state::PlainBoard;
use std::alloc::Global;

/// The parts of a cluster.
#[derive(Drop)]
pub struct Parts {
    pub manager: Manager,
    pub servers: Vec<Server<PlainBoard>>,
    /// Beside each server whether it has stopped.
    pub stopped: Vec<bool>,
    pub clients: Vec<Client>,
    pub bag: Bag,
    pub journal: DoneList,
}

/// A reply that a client was told.
#[derive(Debug, Drop)]
pub struct Telling {
    pub client: ClientId,
    pub reply: ToldReply,
}

/// Answers to pairs of its query that a client was told.
#[derive(Debug, Drop)]
pub struct PartsTelling {
    pub client: ClientId,
    pub parts: kr_order::Parts,
}

/// What a step did beside its change of the parts.
#[derive(Debug, Drop)]
pub struct Noted {
    pub told: Option<Telling>,
    pub parts: Option<PartsTelling>,
    pub shown: Option<Shown>,
    pub refused: Option<Refusal>,
}

impl Noted {
    /// Nothing was told or shown, nothing refused.
    pub fn nothing() -> Self
        ensures { result ≡ record { told = None; parts = None; shown = None; refused = None } }
    {
        Noted {
            told: None,
            parts: None,
            shown: None,
            refused: None,
        }
    }
}

/// What a server that had applied so many entries has newly applied: what is new to the history comes behind it.
pub fn note(
    alloc: Global,
    journal: &mut DoneList,
    before: u64,
    committed: DoneList,
) -> Result<(), NoMemory>
    ensures { OnOk result (journal.new ≡ noted journal.old before committed) }
{
    let known = (journal.len() as u64).saturating_sub(before);
    if known == 0 {
        return journal.append(committed);
    }
    if known >= committed.len() as u64 {
        return Ok(());
    }
    let news = committed.as_slice().split_at(known as usize).1;
    for done in news {
        journal.push(done.copy(alloc)?)?;
    }
    Ok(())
}
