//! A cache of two pairs, and one of as many as a client has.

ghost use Rattle.std.specs.Prelude.{◌≡◌, ◌<◌};

use kr_order::{Answer, EventId, NoMemory};
use order_cache::*;
use std::process::Abort;

// A cache can be moved to a thread.
fn crosses_threads<T: Send>(_value: &T) {}

fn at(answer: Answer, entry: u64) -> Seen
    ensures { result ≡ record { answer = answer; entry = entry } }
{
    Seen { answer, entry }
}

// What the cache tells of the pair.
fn looked(rt: &impl Abort, cache: &mut Cache, a: u64, b: u64, expected: Option<Seen>) {
    let found = cache.look(EventId(a), EventId(b));
    assert_eq!(rt; found, expected, "{a} and {b}");
}

#[test]
fn a_hit_comes_first_and_the_last_pair_goes(rt: HostRuntime) -> Result<(), NoMemory> {
    let mut cache = Cache::new(rt.alloc(), 2)?;
    crosses_threads(&cache);
    cache.put(EventId(1), EventId(2), at(Answer::Before, 5))?;
    cache.put(EventId(3), EventId(4), at(Answer::Before, 6))?;
    looked(&rt, &mut cache, 2, 1, Some(at(Answer::After, 5)));
    cache.put(EventId(5), EventId(6), at(Answer::Before, 7))?;
    looked(&rt, &mut cache, 3, 4, None);
    looked(&rt, &mut cache, 1, 2, Some(at(Answer::Before, 5)));
    cache.put(EventId(6), EventId(5), at(Answer::After, 8))?;
    looked(&rt, &mut cache, 1, 2, Some(at(Answer::Before, 5)));
    looked(&rt, &mut cache, 5, 6, Some(at(Answer::Before, 8)));
    cache.put(EventId(9), EventId(9), at(Answer::Same, 9))?;
    looked(&rt, &mut cache, 9, 9, Some(at(Answer::Same, 9)));
    looked(&rt, &mut cache, 1, 2, None);
    Ok(())
}

// The pairs of the events 1 to `most` with the event 100 are put, each at the entry of its first event.
fn put_many(cache: &mut Cache, most: u64) -> Result<(), NoMemory>
    requires { most < 100 }
{
    for event in 1..most + 1 {
        cache.put(EventId(event), EventId(100), at(Answer::After, event))?;
    }
    Ok(())
}

#[test]
fn a_client_keeps_sixty_four_pairs(rt: HostRuntime) -> Result<(), NoMemory> {
    for (most, last) in [
        (63, Some(at(Answer::After, 1))),
        (64, Some(at(Answer::After, 1))),
        (65, None),
    ] {
        let mut cache = Cache::new(rt.alloc(), 64)?;
        put_many(&mut cache, most)?;
        looked(&rt, &mut cache, 1, 100, last);
        looked(&rt, &mut cache, 2, 100, Some(at(Answer::After, 2)));
        looked(&rt, &mut cache, 100, most, Some(at(Answer::Before, most)));
    }
    Ok(())
}
