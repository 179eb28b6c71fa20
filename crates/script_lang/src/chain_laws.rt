//! Laws of the input of a chain. Each function does nothing: its contract is the law, whose proof is checked with it.

ghost use Rattle.script_lang.specs.ChainLaws.{BadChainLinesAreInNoPlan, TheBadChainLineIsOne, ASpellingIsOfOneChainPlan};
ghost use Rattle.script_lang.specs.ChainLaws.{ChainPlansAreNoLongerThanTheirBytes, ChainQueriesCanBeAnswered, EachKindOfChainLineIsSpeltSo};

/// Bytes with a bad line spell no plan of a chain.
pub fn bad_chain_lines_are_in_no_plan()
    ensures { BadChainLinesAreInNoPlan }
{}

/// There is one first bad line of the input of a chain.
pub fn the_bad_chain_line_is_one()
    ensures { TheBadChainLineIsOne }
{}

/// Bytes spell at most one plan of a chain.
pub fn a_spelling_is_of_one_chain_plan()
    ensures { ASpellingIsOfOneChainPlan }
{}

/// No query of a plan that is spelt asks for more entries than the plan has.
pub fn chain_queries_can_be_answered()
    ensures { ChainQueriesCanBeAnswered }
{}

/// A plan that is spelt has no more entries and queries than its bytes.
pub fn chain_plans_are_no_longer_than_their_bytes()
    ensures { ChainPlansAreNoLongerThanTheirBytes }
{}

/// This is how the input of a chain is spelt, with a line of each kind, and what it gives.
pub fn each_kind_of_chain_line_is_spelt_so()
    ensures { EachKindOfChainLineIsSpeltSo }
{}
