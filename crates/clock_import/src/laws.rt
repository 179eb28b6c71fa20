//! Laws of logs and clocks. Each function does nothing: its contract is the law, whose proof is checked with it.

ghost use Rattle.std.specs.Prelude.{◌≡◌, true, false, [], ◌∷◌, ◌++◌, codes};
ghost use Rattle.script_lang.specs.Line.{line};
ghost use Rattle.clock_import.specs.Log.{log_bytes};
ghost use Rattle.clock_import.specs.Laws.{ClocksSayWhatIsBefore, BadLinesAreInNoLog, TheBadLineIsOne, ASpellingIsOfOneLog};
ghost use Rattle.clock_import.specs.Laws.{TheCyclicLineIsOne, CyclesAreInNoImport, TheTextIsOne, CommandsGiveTheOrder};
ghost use Rattle.kr_order.specs.declared.answer.Answer.TheVariants.{Before, After, Concurrent};
ghost use Rattle.kr_order.specs.declared.history.Command.TheVariants.{Create};
ghost use Rattle.clock_import.specs.Commands.{commands_of};
ghost use Rattle.clock_import.specs.Rows.{goods, text_of, turns, musts, answered, a_message, a_cycle, never_sent};

/// One event is before another exactly where its clock is at most the other's in every place.
pub fn clocks_say_what_is_before()
    ensures { ClocksSayWhatIsBefore }
{}

/// Bytes with a bad line spell no log.
pub fn bad_lines_are_in_no_log()
    ensures { BadLinesAreInNoLog }
{}

/// There is one first bad line.
pub fn the_bad_line_is_one()
    ensures { TheBadLineIsOne }
{}

/// Bytes spell at most one log.
pub fn a_spelling_is_of_one_log()
    ensures { ASpellingIsOfOneLog }
{}

/// There is one line whose pairs are the first to close a cycle.
pub fn the_cyclic_line_is_one()
    ensures { TheCyclicLineIsOne }
{}

/// A log with a cycle has no import.
pub fn cycles_are_in_no_import()
    ensures { CyclesAreInNoImport }
{}

/// The import of a log has one text.
pub fn the_text_is_one()
    ensures { TheTextIsOne }
{}

/// After the commands of a log, one event is answered to be before another exactly where a path of the pairs leads there.
pub fn commands_give_the_order()
    ensures { CommandsGiveTheOrder }
{}

/// A message: the second process knows one event of the first from its receive on.
pub fn a_message_is_known_from_its_receive_on()
    ensures spelt { log_bytes 2 a_message
        ≡ line (codes "processes 2") ++ line (codes "send 1 1") ++ line (codes "local 1") ++ line (codes "receive 2 1")
        ++ line (codes "local 2") }
    ensures good { goods a_message ≡ true ∷ true ∷ true ∷ true ∷ [] }
    ensures text { text_of 2 a_message
        ≡ line (codes "event 1 p1 clock 1,0") ++ line (codes "event 2 p1 clock 2,0") ++ line (codes "event 3 p2 clock 1,1")
        ++ line (codes "event 4 p2 clock 1,2") ++ line (codes "pairs 3") ++ line (codes "1!2") ++ line (codes "1!3")
        ++ line (codes "3!4") ++ line (codes "end") }
{}

/// The commands of that log, and what is answered after them.
pub fn the_commands_of_a_message()
    ensures commands { commands_of a_message ≡ Create ∷ Create ∷ Create ∷ Create ∷ musts ((1, 2) ∷ []) ∷ musts ((1, 3) ∷ [])
        ∷ musts ((3, 4) ∷ []) ∷ [] }
    ensures before { answered a_message 1 4 ≡ Before }
    ensures after { answered a_message 3 1 ≡ After }
    ensures concurrent { answered a_message 2 4 ≡ Concurrent }
{}

/// Two processes that each receive what the other sends only after its own receive: the fourth event closes the cycle,
/// and no event above it does.
pub fn the_fourth_event_closes_a_cycle()
    ensures good { goods a_cycle ≡ true ∷ true ∷ true ∷ true ∷ [] }
    ensures before { turns a_cycle 3 ≡ false ∷ false ∷ false ∷ [] }
    ensures closed { turns a_cycle 4 ≡ true ∷ true ∷ true ∷ true ∷ [] }
{}

/// A message that no line sends may not be received.
pub fn what_is_never_sent_is_not_received()
    ensures { goods never_sent ≡ false ∷ [] }
{}
