//! Bytes cut at their first LF or space, and behind a front, and the numbers in them.

ghost use Rattle.std.specs.Prelude.{◌≡◌, ◌≢◌, ℕ, List, ◌∷◌, ◌++◌, All, IfSome, IfNone, MatchOption};
ghost use Rattle.std.specs.Fmt.{decimal};
ghost use Rattle.script_lang.specs.Line.{HasNoEnd, HasNoSpace, IsCut};
ghost use Rattle.script_lang.specs.Number.{IsFromOneTo};
ghost use Rattle.script_lang.specs.Reading.{Spells};

use kr_text::read_number;

// The bytes before the first LF, and those after it.
pub(crate) fn split_line(bytes: &[u8]) -> Option<(&[u8], &[u8])>
    ensures { MatchOption result (HasNoEnd bytes.now) (λ cut. IsCut bytes.now cut.0.now cut.1.now) }
{
    let end = bytes.iter().position(|b| *b == b'\n')?;
    let (text, rest) = bytes.split_at(end);
    Some((text, rest.split_at(1).1))
}

// The bytes before the first space, and those after it.
pub(crate) fn split_space(text: &[u8]) -> Option<(&[u8], &[u8])>
    ensures { MatchOption result (HasNoSpace text.now)
        (λ cut. HasNoSpace cut.0.now × (text.now ≡ cut.0.now ++ 32 ∷ cut.1.now)) }
{
    let end = text.iter().position(|b| *b == b' ')?;
    let (word, rest) = text.split_at(end);
    Some((word, rest.split_at(1).1))
}

// The bytes after the front, where they begin with it.
pub(crate) fn behind<'a>(bytes: &'a [u8], front: &[u8]) -> Option<&'a [u8]>
    ensures some { IfSome result (λ rest. bytes.now ≡ front.now ++ rest.now) }
    ensures none { IfNone result ((rest : List ℕ) → bytes.now ≢ front.now ++ rest) }
{
    bytes.strip_prefix(front)
}

// The number from 1 to `most` that the text spells.
pub(crate) fn number_of(text: &[u8], most: u64) -> Option<u64>
    ensures { Spells decimal (IsFromOneTo most) text.now result }
{
    let n = read_number(text, most)?;
    if n == 0 { None } else { Some(n) }
}
