//! The cache, and the answers that it takes and gives.

ghost use Rattle.std.specs.Prelude.{◌≡◌, ◌≤◌, ◌↔◌, [], true, min, max, option_map, IsSome, IsNone, IsOk, IfOk, IfSome, OnOk, OnErr};
ghost use Rattle.std.specs.Map.{lookup};
ghost use Rattle.kr_protocol.specs.Cache.{mirror, seen_from, is_lasting, finds, looks_up, remembers};
ghost use Rattle.lru.specs.LruCache.{lru_cache, promoted, put_entries};
ghost use Rattle.order_cache.specs.Seen.{answer_of, turned};
ghost use Rattle.order_cache.specs.Cached.{is_key};

use kr_order::{Answer, EventId, NoMemory};
use lru::LruCache;
use std::alloc::Global;
use std::marker::Model;
use std::num::NonZeroUsize;

/// What was told of a pair of events.
#[derive(Clone, Copy, Debug, PartialEq, Eq)]
pub struct Seen {
    pub answer: Answer,
    /// How many entries the history had for which the answer was given.
    pub entry: u64,
}

/// The answers that were told of pairs last, up to its capacity.
#[derive(Debug, Drop)]
pub struct Cache {
    // by the pair with the lesser event first
    kept: LruCache<(u64, u64), Seen>,
}

impl Model for Cache {
    ghost use Rattle.order_cache.specs.Cached.{Cached, items_of, IsCache};

    ghost Value = { Cached };

    ghost view = { λ cache. record { items = items_of cache.kept.entries; capacity = cache.kept.cap } };

    ghost invariant = { λ cache. IsCache cache.kept.cap (items_of cache.kept.entries) };
}

// The numbers of the events, the lesser first.
fn key_of(a: EventId, b: EventId) -> (u64, u64)
    ensures { result ≡ (min a.0 b.0, max a.0 b.0) }
{
    (a.0.min(b.0), a.0.max(b.0))
}

// How the second event stands to the first.
fn mirror(answer: Answer) -> Answer
    ensures { result ≡ mirror answer }
{
    match answer {
        Answer::Before => Answer::After,
        Answer::After => Answer::Before,
        other => other,
    }
}

// From the answer to a pair that to the pair with the lesser event first, and back.
fn seen_from(a: EventId, b: EventId, answer: Answer) -> Answer
    ensures { result ≡ seen_from a.0 b.0 answer }
{
    if a.0 <= b.0 { answer } else { mirror(answer) }
}

impl Seen {
    // From what is seen of a pair to what is seen of the pair with the lesser event first, and back.
    fn turned(self, a: EventId, b: EventId) -> Seen
        ensures { result ≡ turned a.0 b.0 self }
    {
        Seen {
            answer: seen_from(a, b, self.answer),
            entry: self.entry,
        }
    }
}

// What is kept of the pair, which is then the first.
fn recall(kept: &mut LruCache<(u64, u64), Seen>, key: (u64, u64)) -> Option<Seen>
    ensures value { result ≡ lookup (is_key key) kept.old.entries }
    ensures kept { kept.new ≡ lru_cache (promoted (is_key key) kept.old.entries) kept.old.cap }
{
    kept.get(&key).copied()
}

// Keeps this of the pair, which is then the first. After `NoMemory` what is kept is as before.
fn keep(kept: &mut LruCache<(u64, u64), Seen>, key: (u64, u64), seen: Seen) -> Result<(), NoMemory>
    ensures ok { OnOk result (kept.new ≡ lru_cache (put_entries is_key kept.old key seen) kept.old.cap) }
    ensures known { IsSome (lookup (is_key key) kept.old.entries) → IsOk result }
    ensures err { OnErr result (kept.new ≡ kept.old) }
{
    kept.put(key, seen)?;
    Ok(())
}

// What is told of a pair, where something is kept of it.
fn told(found: Option<Seen>, a: EventId, b: EventId) -> Option<Seen>
    ensures { result ≡ option_map (turned a.0 b.0) found }
{
    match found {
        Some(seen) => Some(seen.turned(a, b)),
        None => None,
    }
}

impl Cache {
    /// A cache without items, which keeps as many as the capacity says: one or more.
    pub fn new(alloc: Global, capacity: usize) -> Result<Cache, NoMemory>
        requires { 1 ≤ capacity }
        ensures items { IfOk result (λ cache. cache.items ≡ []) }
        ensures capacity { IfOk result (λ cache. cache.capacity ≡ capacity) }
    {
        let capacity = NonZeroUsize::new(capacity).unwrap();
        Ok(Cache {
            kept: LruCache::new(alloc, capacity)?,
        })
    }

    /// What was told of the pair or of its mirror, as `a` stands to `b`; that item then comes first. It takes no memory.
    pub fn look(&mut self, a: EventId, b: EventId) -> Option<Seen>
        ensures told { option_map answer_of result ≡ (looks_up self.old.items a.0 b.0).told }
        ensures items { self.new ≡ record self.old { items = (looks_up self.old.items a.0 b.0).after } }
        ensures none { IsNone result ↔ IsNone (finds self.old.items a.0 b.0) }
        ensures lasting { IfSome result (λ seen. is_lasting a.0 b.0 seen.answer ≡ true) }
    {
        let found = recall(&mut self.kept, key_of(a, b));
        told(found, a, b)
    }

    /// The pair comes first with this answer, in place of an older one to it or to its mirror. Where the pair is new to
    /// a full cache, the last item goes. Only an answer that can never change is kept: Before and After of two events,
    /// and Same of one. After `NoMemory`, which is not met where the pair is an item already, the cache is as before.
    pub fn put(&mut self, a: EventId, b: EventId, seen: Seen) -> Result<(), NoMemory>
        requires { is_lasting a.0 b.0 seen.answer ≡ true }
        ensures ok { OnOk result (self.new ≡ record self.old {
          items = remembers self.old.capacity self.old.items a.0 b.0 seen.answer seen.entry;
        }) }
        ensures known { IsSome (finds self.old.items a.0 b.0) → IsOk result }
        ensures err { OnErr result (self.new ≡ self.old) }
    {
        keep(&mut self.kept, key_of(a, b), seen.turned(a, b))?;
        Ok(())
    }
}
