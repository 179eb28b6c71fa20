//! What the words of a call ask for.

ghost use Rattle.std.specs.Prelude.{◌↔◌, ◌≡◌, ◌∷◌, [], map, codes, IsTrue, IfSome, IfNone};
ghost use Rattle.std.specs.Rc.{rc_str_bytes};
ghost use Rattle.kronos_driver.specs.Ends.{IsForm};
ghost use Rattle.kronos_driver.specs.Forms.{AskFor};

use kr_text::read_number;
use std::rc::RcStr;

/// What the words of a call ask for.
#[derive(Clone, Copy, Debug, PartialEq, Eq)]
pub enum Form {
    /// `script`: the run of the script that is read.
    Script,
    /// `load N`: the run of the load of so many rounds, 1 to 2,000.
    Load(u32),
    /// `import`: the import of the log that is read.
    Import,
}

// A load has so many rounds at the most.
const MOST_ROUNDS: u64 = 2000;

/// What the words ask for; `None` where they are no form.
pub fn form_of(words: &[RcStr]) -> Option<Form>
    ensures some { IfSome result (λ form. AskFor form (map rc_str_bytes words.now)) }
    ensures none { IfNone result (IsForm (map rc_str_bytes words.now) → ⊥) }
{
    match words {
        [word] => word_form(word),
        [word, number] => load_form(word, number),
        _ => None,
    }
}

// What the one word asks for.
fn word_form(word: &RcStr) -> Option<Form>
    ensures some { IfSome result (λ form. AskFor form (rc_str_bytes word.now ∷ [])) }
    ensures none { IfNone result (IsForm (rc_str_bytes word.now ∷ []) → ⊥) }
{
    if word.as_str() == "script" {
        Some(Form::Script)
    } else if word.as_str() == "import" {
        Some(Form::Import)
    } else {
        None
    }
}

// What the two words ask for.
fn load_form(word: &RcStr, number: &RcStr) -> Option<Form>
    ensures some { IfSome result (λ form. AskFor form (rc_str_bytes word.now ∷ rc_str_bytes number.now ∷ [])) }
    ensures none { IfNone result (IsForm (rc_str_bytes word.now ∷ rc_str_bytes number.now ∷ []) → ⊥) }
{
    if word.as_str() != "load" {
        return None;
    }
    match read_number(number.as_str().as_bytes(), MOST_ROUNDS) {
        Some(0) | None => None,
        Some(rounds) => Some(Form::Load(rounds as u32)),
    }
}
