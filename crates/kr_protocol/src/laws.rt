//! Laws of the nodes. Each function does nothing: its contract is the law, whose proof is checked with it.

ghost use Rattle.kr_protocol.specs.Laws.{RepeatsChangeNothing};
ghost use Rattle.kr_protocol.specs.Evolves.{TheFirstViewRises, LaterViewsFollow};

/// A packet that a server takes a second time leaves its log as it is: a retried or repeated request gets no
/// second place.
pub fn repeats_change_nothing()
    ensures { RepeatsChangeNothing }
{}

/// The ids of the first view rise, from 1 to the number of its servers.
pub fn the_first_view_rises()
    ensures { TheFirstViewRises }
{}

/// Of an earlier view and a later one: newcomers have ids that no server had before, who left has stopped, and members
/// stay members as long as they are named.
pub fn later_views_follow()
    ensures { LaterViewsFollow }
{}
