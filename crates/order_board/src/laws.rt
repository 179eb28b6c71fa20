//! Laws of the rule of the two copies. Each function does nothing: its contract is the law, whose proof is checked with
//! it. They are the kinds of step that the calls of the writer and its readers make.

ghost use Rattle.order_board.specs.Kinds.{TheFirstCopyKeepsTheRule, ReadersMayCome, PublishingKeepsTheRule, EnteringKeepsTheRule};
ghost use Rattle.order_board.specs.Kinds.{TellingKeepsTheRule, LearningKeepsTheRule, AddingKeepsTheLog, BeginningsAgree};

/// A copy that nobody has seen may be published.
pub fn the_first_copy_keeps_the_rule()
    ensures { TheFirstCopyKeepsTheRule }
{}

/// A reader may come that has seen nothing.
pub fn readers_may_come()
    ensures { ReadersMayCome }
{}

/// A copy may be published that goes on from the published one.
pub fn publishing_keeps_the_rule()
    ensures { PublishingKeepsTheRule }
{}

/// The published copy may be entered: its list begins with what the reader had seen.
pub fn entering_keeps_the_rule()
    ensures { EnteringKeepsTheRule }
{}

/// What was seen may be told.
pub fn telling_keeps_the_rule()
    ensures { TellingKeepsTheRule }
{}

/// What was told may be learnt.
pub fn learning_keeps_the_rule()
    ensures { LearningKeepsTheRule }
{}

/// Where the log is as long as what was seen, an entry may be added to it.
pub fn adding_keeps_the_log()
    ensures { AddingKeepsTheLog }
{}

/// Of two beginnings of one log the one that is no longer begins the other.
pub fn beginnings_agree()
    ensures { BeginningsAgree }
{}
