//! What the definitions say of small loads, against texts by hand. Each function does nothing: its contract is the law,
//! whose proof is checked with it.

ghost use Rattle.std.specs.Prelude.{◌≡◌};
ghost use Rattle.load_gen.specs.Made.{made_events};
ghost use Rattle.load_gen.specs.Summary.{load_text};
ghost use Rattle.load_gen.specs.Rows.{one_round, one_round_text, eleven_rounds_text};

/// One round is one create, whose packets are all delivered.
pub fn one_round_is_a_create()
    ensures events { made_events 1 ≡ one_round }
    ensures text { load_text 1 ≡ one_round_text }
{}

/// Eleven rounds have a command of each kind, and queries.
pub fn eleven_rounds_have_all_calls()
    ensures { load_text 11 ≡ eleven_rounds_text }
{}
