//! Laws of runs. Each function does nothing: its contract is the law, whose proof is checked with it.

ghost use Rattle.kr_world.specs.Counts.{BeforesAreFew};
ghost use Rattle.kr_world.specs.EveryWorld.{EveryWorldIsSound, FactsHold, MembersHoldTheHistory, OneTailRuns, PromotionIsSafe};
ghost use Rattle.kr_world.specs.Lawful.{RunsAreLawful};
ghost use Rattle.kr_world.specs.Round.{RoundsGoStepByStep};
ghost use Rattle.kr_world.specs.Sound.{WorldsAreSound, QueriesAreCounted};

pub mod rows;

/// The first world of a run is sound, and each step leaves a sound world so; so every world of every run is.
pub fn worlds_are_sound()
    ensures steps { WorldsAreSound }
    ensures worlds { EveryWorldIsSound }
{}

/// In every world of every run the facts hold: packets are true, each client's entries are the commands that it began,
/// clients have seen only history and remember what is true of it, and queries that wait were asked.
pub fn facts_hold()
    ensures { FactsHold }
{}

/// In every world of every run the history stands in the log of each member of the current view.
pub fn members_hold_the_history()
    ensures { MembersHoldTheHistory }
{}

/// In every world of every run a tail that has not stopped is the last member of the current view, and its log is the
/// history; so there are never two.
pub fn one_tail_runs()
    ensures { OneTailRuns }
{}

/// In whichever step of a run a joiner becomes a member, the history stood in its log before.
pub fn promotion_is_safe()
    ensures { PromotionIsSafe }
{}

/// A step begins one query of a client at the most.
pub fn queries_are_counted()
    ensures { QueriesAreCounted }
{}

/// Every run of a script is lawful: each command has one place, each told reply is true and new, the order stays
/// acyclic, each told part of a query is true, what a client is told comes in order, and what it has seen is the greatest
/// of what it has heard of.
pub fn runs_are_lawful()
    ensures { RunsAreLawful }
{}

/// In a run no more parts of queries are told as before than 32, the most pairs of a query, for each of its plain steps.
pub fn befores_are_few()
    ensures { BeforesAreFew }
{}

/// The steps of a round that are read from the world before it are those that are read as it goes on: no step of a round
/// changes which servers run, and each client knows the manager's view by the time that it tries again.
pub fn rounds_go_step_by_step()
    ensures { RoundsGoStepByStep }
{}
