//! Bytes cut at their first LF or space, and behind a front.

ghost use Rattle.std.specs.Prelude.{◌≡◌, ◌≢◌, ◌↔◌, IsTrue, ℕ, List, ◌++◌, IfSome, IfNone, MatchOption};
ghost use Rattle.script_lang.specs.Line.{HasNoEnd, IsCut, IsWordCut};

// The bytes before the first LF, and those after it.
pub(crate) fn split_line(bytes: &[u8]) -> Option<(&[u8], &[u8])>
    ensures { MatchOption result (HasNoEnd bytes.now) (λ cut. IsCut bytes.now cut.0.now cut.1.now) }
{
    let end = bytes.iter().position(|b| *b == b'\n')?;
    let (text, rest) = bytes.split_at(end);
    Some((text, rest.split_at(1).1))
}

// The bytes before the first space, and those from it on.
pub(crate) fn split_word(text: &[u8]) -> (&[u8], &[u8])
    ensures { IsWordCut text.now result.0.now result.1.now }
{
    match text.iter().position(|b| *b == b' ') {
        Some(end) => text.split_at(end),
        None => text.split_at(text.len()),
    }
}

// The bytes after the front, where they begin with it.
pub(crate) fn behind<'a>(bytes: &'a [u8], front: &[u8]) -> Option<&'a [u8]>
    ensures some { IfSome result (λ rest. bytes.now ≡ front.now ++ rest.now) }
    ensures none { IfNone result ((rest : List ℕ) → bytes.now ≢ front.now ++ rest) }
{
    bytes.strip_prefix(front)
}

// Whether both are the same bytes.
pub(crate) fn is(text: &[u8], other: &[u8]) -> bool
    ensures { IsTrue result ↔ (text.now ≡ other.now) }
{
    text == other
}
