//! What the words of a call ask for.

ghost use Rattle.std.specs.Prelude.{◌∷◌, [], map, IfSome, IfNone};
ghost use Rattle.std.specs.Rc.{rc_str_bytes};
ghost use Rattle.live_driver.specs.Forms.{AskFor, IsForm};

use std::rc::RcStr;

/// What the words of a call ask for.
#[derive(Clone, Copy, Debug, PartialEq, Eq)]
pub enum Form {
    /// `live`: the calls of the clients that are read, each client's on a thread of its own.
    Live,
    /// `chain`: the entries and the queries that are read, by three nodes on threads of their own.
    Chain,
}

/// What the words ask for; `None` where they are no form.
pub fn form_of(words: &[RcStr]) -> Option<Form>
    ensures some { IfSome result (λ form. AskFor form (map rc_str_bytes words.now)) }
    ensures none { IfNone result (IsForm (map rc_str_bytes words.now) → ⊥) }
{
    match words {
        [word] => word_form(word),
        _ => None,
    }
}

// What the one word asks for.
fn word_form(word: &RcStr) -> Option<Form>
    ensures some { IfSome result (λ form. AskFor form (rc_str_bytes word.now ∷ [])) }
    ensures none { IfNone result (IsForm (rc_str_bytes word.now ∷ []) → ⊥) }
{
    if word.as_str() == "live" {
        Some(Form::Live)
    } else if word.as_str() == "chain" {
        Some(Form::Chain)
    } else {
        None
    }
}
