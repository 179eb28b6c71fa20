//! What a client remembers of the pairs of a new query.

ghost use Rattle.std.specs.Prelude.{◌≡◌, ◌≤◌, ◌<◌, length, IfOk, OnOk};
ghost use Rattle.kr_protocol.specs.Cache.{looks_up};
ghost use Rattle.kr_protocol.specs.Client.{looks_all};
ghost use Rattle.client_session.specs.Lookups.{part_behind, left_behind, is_looked};

use crate::answers::leave;
use kr_order::{Asked, EventId, NoMemory, Parts, Teller, ToldPart};
use order_cache::Cache;
use std::alloc::Global;

/// What is told of the pairs that are found, and the others.
#[derive(Drop)]
pub struct Looked {
    pub parts: Parts,
    pub left: Asked,
}

// Looks one pair up: it comes behind the told ones or behind the others.
fn look_at(
    cache: &mut Cache,
    q: u64,
    pair: (EventId, EventId),
    looked: &mut Looked,
) -> Result<(), NoMemory>
    requires { length looked.old.left < 32 }
    ensures parts { OnOk result (looked.new.parts ≡ part_behind looked.old.parts q pair (looks_up cache.old.items pair.0.0 pair.1.0).told) }
    ensures left { OnOk result (looked.new.left ≡ left_behind looked.old.left pair (looks_up cache.old.items pair.0.0 pair.1.0).told) }
    ensures cache { cache.new ≡ record cache.old { items = (looks_up cache.old.items pair.0.0 pair.1.0).after } }
{
    match cache.look(pair.0, pair.1) {
        Some(seen) => looked.parts.push(ToldPart {
            q,
            a: pair.0,
            b: pair.1,
            answer: seen.answer,
            entry: seen.entry,
            by: Teller::Cache,
        }),
        None => leave(&mut looked.left, pair),
    }
}

/// Looks the pairs of a query up in their order.
pub fn look_up(
    alloc: Global,
    cache: &mut Cache,
    q: u64,
    pairs: &[(EventId, EventId)],
) -> Result<Looked, NoMemory>
    requires { length pairs.now ≤ 32 }
    ensures looked { IfOk result (λ looked. is_looked looked.parts looked.left cache.new.items (looks_all q cache.old.items pairs.now)) }
    ensures capacity { cache.new.capacity ≡ cache.old.capacity }
{
    let mut looked = Looked {
        parts: Parts::new(alloc),
        left: Asked::new(alloc),
    };
    for pair in pairs {
        look_at(cache, q, *pair, &mut looked)?;
    }
    Ok(looked)
}
