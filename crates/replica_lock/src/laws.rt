//! Laws of the rule behind a turn, of any values. Each function does nothing: its contract is the law, whose proof is
//! checked with it. The first six are the kinds of step that a turn's calls make, each with what it asks.

ghost use Rattle.replica_lock.specs.Kinds.{TakingKeepsTheRule, CountingKeepsTheRule, GivingKeepsTheRule, LookingKeepsTheRule};
ghost use Rattle.replica_lock.specs.Kinds.{SplittingKeepsTheRule, JoiningKeepsTheRule, OneSeatHoldsTheTurn, TheHistoryIsShort};

use crate::Held;

/// A seat that does not hold the turn may try to take it.
pub fn taking_keeps_the_rule<T: Held>()
    ensures { (about : _) → TakingKeepsTheRule T.count_of T.name_of about }
{}

/// The holder may count one entry more, once.
pub fn counting_keeps_the_rule<T: Held>()
    ensures { (about : _) → CountingKeepsTheRule T.count_of T.name_of about }
{}

/// The holder may give back a value of the turn's name that has as many entries as the history.
pub fn giving_keeps_the_rule<T: Held>()
    ensures { (about : _) → GivingKeepsTheRule T.count_of T.name_of about }
{}

/// A seat may look at the history word.
pub fn looking_keeps_the_rule<T: Held>()
    ensures { (about : _) → LookingKeepsTheRule T.count_of T.name_of about }
{}

/// A seat that stands for several, and has given nothing, may be split.
pub fn splitting_keeps_the_rule<T: Held>()
    ensures { (about : _) → SplittingKeepsTheRule T.count_of T.name_of about }
{}

/// Seats that do not hold the turn may be joined.
pub fn joining_keeps_the_rule<T: Held>()
    ensures { (about : _) → JoiningKeepsTheRule T.count_of T.name_of about }
{}

/// No two seats hold the turn at once.
pub fn one_seat_holds_the_turn<T: Held>()
    ensures { (about : _) → OneSeatHoldsTheTurn T.count_of T.name_of about }
{}

/// The history never has 2 ^ 58 entries.
pub fn the_history_is_short<T: Held>()
    ensures { (about : _) → TheHistoryIsShort T.count_of T.name_of about }
{}
