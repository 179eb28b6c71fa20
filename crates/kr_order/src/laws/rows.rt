//! Worked histories: what the definitions reply to the commands of one client, and answer after them.

ghost use Rattle.std.specs.Prelude.{◌≡◌, [], ◌∷◌, ◌++◌, drop, codes, replicate};
ghost use Rattle.kr_order.specs.Rows.{create, assign, acquire, release, must, prefer, chain_of_30, dead_on_the_way};
ghost use Rattle.kr_order.specs.Rows.{replies_of, answer_after, held_after, held_pairs_after, repeated};

/// A must is kept, also where the order has it already. The other way round it contradicts.
pub fn a_must_is_kept_and_its_reverse_contradicts()
    ensures { replies_of (create ∷ create ∷ assign (must 1 2 ∷ []) ∷ assign (must 1 2 ∷ []) ∷ assign (must 2 1 ∷ []) ∷ [])
        ≡ codes "created 1" ∷ codes "created 2" ∷ codes "assigned kept" ∷ codes "assigned kept" ∷ codes "contradicts 0" ∷ [] }
{}

/// A prefer is reversed by a must that stands behind it in the batch: musts come first.
pub fn a_later_must_reverses_a_prefer()
    ensures { replies_of (create ∷ create ∷ assign (prefer 1 2 ∷ must 2 1 ∷ []) ∷ [])
        ≡ codes "created 1" ∷ codes "created 2" ∷ codes "assigned reversed kept" ∷ [] }
{}

/// The third must closes a cycle with the two before it, and the batch changes nothing: its second must may
/// still be assigned the other way round.
pub fn a_batch_is_checked_against_itself()
    ensures { replies_of (create ∷ create ∷ create ∷ assign (must 1 2 ∷ must 2 3 ∷ must 3 1 ∷ []) ∷ assign (must 3 2 ∷ []) ∷ [])
        ≡ codes "created 1" ∷ codes "created 2" ∷ codes "created 3" ∷ codes "contradicts 2" ∷ codes "assigned kept" ∷ [] }
{}

/// An event that was never made is told before a must that contradicts, also where its pair stands behind it.
pub fn unknown_comes_before_contradicts()
    ensures { replies_of (create ∷ create ∷ create ∷ assign (must 1 2 ∷ must 2 3 ∷ must 3 1 ∷ must 9 1 ∷ []) ∷ [])
        ≡ codes "created 1" ∷ codes "created 2" ∷ codes "created 3" ∷ codes "unknown 3" ∷ [] }
{}

/// An event is not before itself: as a must that contradicts, and as a prefer it says nothing.
pub fn an_event_beside_itself()
    ensures { replies_of (create ∷ assign (must 1 1 ∷ []) ∷ assign (prefer 1 1 ∷ []) ∷ assign [] ∷ [])
        ≡ codes "created 1" ∷ codes "contradicts 0" ∷ codes "assigned same" ∷ codes "assigned" ∷ [] }
{}

/// The longest batch.
pub fn a_batch_of_32_pairs()
    ensures { replies_of (create ∷ assign (replicate 32 (prefer 1 1)) ∷ [])
        ≡ codes "created 1" ∷ (codes "assigned" ++ repeated 32 (codes " same")) ∷ [] }
{}

/// The index of a must that contradicts counts the prefers too, and the batch's prefers are not in its way.
pub fn a_must_is_named_by_its_index_in_the_batch()
    ensures { replies_of (create ∷ create ∷ assign (must 1 2 ∷ []) ∷ assign (prefer 2 1 ∷ must 2 1 ∷ []) ∷ [])
        ≡ codes "created 1" ∷ codes "created 2" ∷ codes "assigned kept" ∷ codes "contradicts 1" ∷ [] }
{}

/// A prefer is asked of the order with the prefers before it.
pub fn prefers_are_taken_in_order()
    ensures { replies_of (create ∷ create ∷ create ∷ assign (prefer 1 2 ∷ prefer 2 3 ∷ prefer 3 1 ∷ []) ∷ [])
        ≡ codes "created 1" ∷ codes "created 2" ∷ codes "created 3" ∷ codes "assigned kept kept reversed" ∷ [] }
{}

/// No event is known before one is made.
pub fn an_event_is_unknown_before_it_is_made()
    ensures { replies_of (assign (must 1 1 ∷ []) ∷ create ∷ assign (prefer 2 1 ∷ []) ∷ [])
        ≡ codes "unknown 0" ∷ codes "created 1" ∷ codes "unknown 0" ∷ [] }
{}

/// Answers follow paths of pairs.
pub fn answers_follow_paths()
    ensures before { answer_after (create ∷ create ∷ create ∷ assign (must 1 2 ∷ must 2 3 ∷ []) ∷ []) 1 3 ≡ codes "before" }
    ensures after { answer_after (create ∷ create ∷ create ∷ assign (must 1 2 ∷ must 2 3 ∷ []) ∷ []) 3 1 ≡ codes "after" }
    ensures same { answer_after (create ∷ create ∷ create ∷ assign (must 1 2 ∷ must 2 3 ∷ []) ∷ []) 2 2 ≡ codes "same" }
    ensures unknown { answer_after (create ∷ create ∷ create ∷ assign (must 1 2 ∷ must 2 3 ∷ []) ∷ []) 4 4 ≡ codes "unknown" }
    ensures concurrent { answer_after (create ∷ create ∷ create ∷ assign (must 1 2 ∷ must 1 3 ∷ []) ∷ []) 2 3 ≡ codes "concurrent" }
{}

/// Two batches that make one chain of 30 events: pairs of neighbours, and then a pair between each two of these.
/// What goes back along the chain is reversed as a prefer, and contradicts as a must.
pub fn a_chain_of_30_events()
    ensures made { drop 30 (replies_of chain_of_30)
        ≡ (codes "assigned" ++ repeated 15 (codes " kept")) ∷ (codes "assigned" ++ repeated 14 (codes " kept")) ∷ [] }
    ensures asked { drop 32 (replies_of (chain_of_30 ++ assign (prefer 30 1 ∷ must 2 29 ∷ []) ∷ assign (must 30 1 ∷ []) ∷ []))
        ≡ codes "assigned reversed kept" ∷ codes "contradicts 0" ∷ [] }
    ensures before { answer_after chain_of_30 1 30 ≡ codes "before" }
    ensures after { answer_after chain_of_30 29 2 ≡ codes "after" }
{}

/// An event has one reference when it is made. At none it is dead: no command names it again, and it is not even
/// the same as itself.
pub fn a_dead_event_is_unknown()
    ensures told { replies_of (create ∷ acquire 1 ∷ release 1 ∷ release 1 ∷ release 1 ∷ acquire 1 ∷ assign (must 1 1 ∷ []) ∷ [])
        ≡ codes "created 1" ∷ codes "count 2" ∷ codes "count 1" ∷ codes "count 0"
        ∷ codes "unknown 0" ∷ codes "unknown 0" ∷ codes "unknown 0" ∷ [] }
    ensures answer { answer_after (create ∷ release 1 ∷ []) 1 1 ≡ codes "unknown" }
{}

/// A dead event on the way from one live event to another: it is held, and so is the path.
pub fn a_dead_event_on_the_way_is_held()
    ensures told { drop 4 (replies_of dead_on_the_way) ≡ codes "count 0" ∷ [] }
    ensures answer { answer_after dead_on_the_way 1 3 ≡ codes "before" }
    ensures events { held_after dead_on_the_way ≡ 1 ∷ 2 ∷ 3 ∷ [] }
    ensures pairs { held_pairs_after dead_on_the_way ≡ (1, 2) ∷ (2, 3) ∷ [] }
{}

/// Once no live event is before them, dead events are collected, and their pairs with them.
pub fn dead_events_before_a_live_one_are_collected()
    ensures told { drop 5 (replies_of (dead_on_the_way ++ release 1 ∷ [])) ≡ codes "count 0" ∷ [] }
    ensures events { held_after (dead_on_the_way ++ release 1 ∷ []) ≡ 3 ∷ [] }
    ensures pairs { held_pairs_after (dead_on_the_way ++ release 1 ∷ []) ≡ [] }
{}
