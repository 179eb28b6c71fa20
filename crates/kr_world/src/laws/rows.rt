//! Worked runs: what the definitions print for a script, against a text that was computed by hand.

ghost use Rattle.std.specs.Prelude.{◌≡◌, [], ◌∷◌};
ghost use Rattle.kr_world.specs.FullBag.{AFullBagRefuses};
ghost use Rattle.kr_world.specs.Spent.{JoinsEnd};
ghost use Rattle.kr_world.specs.Run.{text_of};
ghost use Rattle.kr_world.specs.ChainRows.{three_servers, three_servers_text, down_the_chain, down_the_chain_text};
ghost use Rattle.kr_world.specs.ChainRows.{entries_come_again, entries_come_again_text, lost_on_the_way};
ghost use Rattle.kr_world.specs.ChainRows.{lost_on_the_way_text};
ghost use Rattle.kr_world.specs.HeldRows.{events_released, events_released_text};
ghost use Rattle.kr_world.specs.QueryRows.{concurrent_events, concurrent_events_text, bound_events, bound_events_text};
ghost use Rattle.kr_world.specs.QueryRows.{asked_at_the_head, asked_at_the_head_text};
ghost use Rattle.kr_world.specs.JoinRows.{tail_joins, tail_joins_text};
ghost use Rattle.kr_world.specs.RoundRows.{two_rounds, two_rounds_text};
ghost use Rattle.kr_world.specs.SeenRows.{unsure_of_all, unsure_of_all_text, told_there, heard_there, seen_there};
ghost use Rattle.kr_world.specs.StopRows.{head_stops, head_stops_text, tail_stops, tail_stops_text};
ghost use Rattle.kr_world.specs.StopRows.{one_of_two_is_new, one_of_two_is_new_text};
ghost use Rattle.kr_world.specs.Rows.{create_an_event, create_an_event_text, request_delivered_twice};
ghost use Rattle.kr_world.specs.Rows.{request_delivered_twice_text, request_tried_again, request_tried_again_text};
ghost use Rattle.kr_world.specs.Rows.{refused_steps, refused_steps_text, two_events, two_events_text};

/// One server, one client, one create.
pub fn one_create()
    ensures { text_of create_an_event ≡ create_an_event_text }
{}

/// The request comes twice: the second time its reply is sent again. The reply comes twice: the client takes
/// the first.
pub fn a_repeated_request_has_one_place()
    ensures { text_of request_delivered_twice ≡ request_delivered_twice_text }
{}

/// The request comes three times and is tried again: each time but the first its reply is sent again, and the client
/// takes one.
pub fn a_call_is_tried_again()
    ensures { text_of request_tried_again ≡ request_tried_again_text }
{}

/// The refused words for packets, clients and servers that are not there, for an open call and none, and for a packet that
/// was lost.
pub fn refused_steps_change_nothing()
    ensures { text_of refused_steps ≡ refused_steps_text }
{}

/// A second create gives the second event.
pub fn events_are_numbered_in_order()
    ensures { text_of two_events ≡ two_events_text }
{}

/// A full bag refuses each call and each query of an idle client, each retry of an open call, each delivery, each
/// server's work and tick, and each round.
pub fn a_full_bag_refuses()
    ensures { AFullBagRefuses }
{}

/// A join is refused with `ServersSpent` exactly where 64 servers were made and none is being added.
pub fn joins_end_with_the_servers()
    ensures { JoinsEnd }
{}

/// An answer is told once, and one to another query is not told.
pub fn an_answer_is_told_once()
    ensures { text_of concurrent_events ≡ concurrent_events_text }
{}

/// A must binds, a prefer against it is reversed, a must against it is refused, and queries tell so.
pub fn a_must_binds()
    ensures { text_of bound_events ≡ bound_events_text }
{}

/// Three servers to which nothing happens.
pub fn an_empty_run_has_no_history()
    ensures { text_of three_servers ≡ three_servers_text }
{}

/// A create goes down a chain of three and is replied by the tail; the acknowledgements come up the chain, a newer
/// one before an older one.
pub fn a_create_goes_down_the_chain()
    ensures { text_of down_the_chain ≡ down_the_chain_text }
{}

/// Entries that come twice, and older ones after newer ones, are acknowledged again and not taken twice.
pub fn entries_are_taken_once()
    ensures { text_of entries_come_again ≡ entries_come_again_text }
{}

/// A packet that is lost is not delivered. Entries that were lost are sent again when their server ticks, and a
/// command whose reply was lost is replied again when its client tries again.
pub fn what_is_lost_comes_again()
    ensures { text_of lost_on_the_way ≡ lost_on_the_way_text }
{}

/// A server that may lack entries is unsure, and the last one is asked; a server that is not asked for that refers to its
/// view; and what is told for good is told by the cache the next time.
pub fn an_unsure_answer_is_asked_again()
    ensures { text_of asked_at_the_head ≡ asked_at_the_head_text }
{}

/// An answer that is unsure of all pairs tells its client nothing, and what it names has been seen all the same.
pub fn what_is_unsure_is_seen()
    ensures text { text_of unsure_of_all ≡ unsure_of_all_text }
    ensures first { (told_there 1 ≡ 1 ∷ 2 ∷ []) × (heard_there 1 ≡ 1 ∷ 2 ∷ []) }
    ensures second { (told_there 2 ≡ 2 ∷ []) × (heard_there 2 ≡ 1 ∷ 2 ∷ []) }
    ensures seen { seen_there ≡ 2 ∷ 2 ∷ [] }
{}

/// An event without a reference is held while one before it is live, and its pairs are, and no longer; that it was before
/// another stays so.
pub fn live_events_hold_others()
    ensures { text_of events_released ≡ events_released_text }
{}

/// A must that only the first server holds is never told: where that server stops, what others bound without it stands.
pub fn what_only_the_head_holds_is_not_told()
    ensures { text_of head_stops ≡ head_stops_text }
{}

/// The tail stops after it has committed, and its reply is lost: the server before it becomes the tail and replies.
pub fn a_new_tail_replies_for_the_old_one()
    ensures { text_of tail_stops ≡ tail_stops_text }
{}

/// A server that becomes the tail acknowledges entries of which the history has some: it grows by the others.
pub fn a_new_tail_tells_what_is_new()
    ensures { text_of one_of_two_is_new ≡ one_of_two_is_new_text }
{}

/// A server joins while the tail has not learnt of it, and the tail stops once the joiner is a member: the new tail tells
/// what the old one had taken.
pub fn a_joiner_becomes_the_tail()
    ensures { text_of tail_joins ≡ tail_joins_text }
{}

/// A call that is open is tried again in each round, what is under way at its deliveries is delivered, and what this sends
/// is delivered in the next round.
pub fn what_is_under_way_comes_in_one_round()
    ensures { text_of two_rounds ≡ two_rounds_text }
{}
