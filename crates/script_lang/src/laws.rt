//! Laws of the grammar. Each function does nothing: its contract is the law, whose proof is checked with it.

ghost use Rattle.script_lang.specs.Laws.{BadLinesAreInNoScript, TheBadLineIsOne, ASpellingIsOfOneScript, ScriptsAreReadAsPrinted};
ghost use Rattle.script_lang.specs.Laws.{EachKindOfLineIsSpeltSo};
ghost use Rattle.script_lang.specs.LiveLaws.{BadLiveLinesAreInNoPlan, TheBadLiveLineIsOne, ASpellingIsOfOnePlan, PlansAreReadAsPrinted};
ghost use Rattle.script_lang.specs.LiveLaws.{EachKindOfCallIsSpeltSo};

/// Bytes with a bad line spell no script.
pub fn bad_lines_are_in_no_script()
    ensures { BadLinesAreInNoScript }
{}

/// There is one first bad line.
pub fn the_bad_line_is_one()
    ensures { TheBadLineIsOne }
{}

/// Bytes spell at most one script.
pub fn a_spelling_is_of_one_script()
    ensures { ASpellingIsOfOneScript }
{}

/// Printing a script that was read gives the bytes again, and what is printed of a script spells it.
pub fn scripts_are_read_as_printed()
    ensures { ScriptsAreReadAsPrinted }
{}

/// This is how lines are spelt, one of each kind.
pub fn each_kind_of_line_is_spelt_so()
    ensures { EachKindOfLineIsSpeltSo }
{}

/// Bytes with a bad line spell no plan.
pub fn bad_live_lines_are_in_no_plan()
    ensures { BadLiveLinesAreInNoPlan }
{}

/// There is one first bad line of live input.
pub fn the_bad_live_line_is_one()
    ensures { TheBadLiveLineIsOne }
{}

/// Bytes spell at most one plan.
pub fn a_spelling_is_of_one_plan()
    ensures { ASpellingIsOfOnePlan }
{}

/// Bytes spell a plan exactly where they are its lines, one after the other.
pub fn plans_are_read_as_printed()
    ensures { PlansAreReadAsPrinted }
{}

/// This is how live input is spelt: that of one client, and that of sixteen with a line of each kind.
pub fn each_kind_of_call_is_spelt_so()
    ensures { EachKindOfCallIsSpeltSo }
{}
