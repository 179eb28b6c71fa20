//! Numbers in a line.

ghost use Rattle.std.specs.Prelude.{◌≡◌, ◌≤◌, ℕ, List, ◌++◌, All, IfSome, IfNone};
ghost use Rattle.std.specs.Fmt.{decimal};
ghost use Rattle.script_lang.specs.Number.{IsFromOneTo, IsDigit, BeginsNoDigit, ReadsNumber, ReadsTwo};
ghost use Rattle.script_lang.specs.Reading.{Spells, ReadsWord, AreFromOneTo, one_word, two_words};

use crate::line::behind;
use kr_text::read_number;

// The number from 1 to `most` that the text spells.
pub(crate) fn number_of(text: &[u8], most: u64) -> Option<u64>
    ensures { Spells decimal (IsFromOneTo most) text.now result }
{
    let n = read_number(text, most)?;
    if n == 0 { None } else { Some(n) }
}

// The digits in front, and what follows them.
fn split_digits(bytes: &[u8]) -> (&[u8], &[u8])
    ensures whole { bytes.now ≡ result.0.now ++ result.1.now }
    ensures digits { All IsDigit result.0.now }
    ensures ends { BeginsNoDigit result.1.now }
{
    match bytes.iter().position(|b| *b < b'0' || b'9' < *b) {
        Some(end) => bytes.split_at(end),
        None => bytes.split_at(bytes.len()),
    }
}

// The number from 1 to `most` in front, and what follows its last digit.
pub(crate) fn number_in_front(bytes: &[u8], most: u64) -> Option<(u64, &[u8])>
    ensures some { IfSome result (λ read. ReadsNumber most bytes.now read.0 read.1.now) }
    ensures none { IfNone result ((n : ℕ) (rest : List ℕ) → ReadsNumber most bytes.now n rest → ⊥) }
{
    let (digits, rest) = split_digits(bytes);
    let n = number_of(digits, most)?;
    Some((n, rest))
}

// The two numbers in front, from 1 to these limits, with the byte between them, and what follows.
pub(crate) fn two_in_front(
    bytes: &[u8],
    limit: u64,
    then_limit: u64,
) -> Option<(u64, u8, u64, &[u8])>
    ensures some { IfSome result (λ read. ReadsTwo limit then_limit bytes.now read.0 read.1 read.2 read.3.now) }
    ensures none { IfNone result ((a sign b : ℕ) (rest : List ℕ) →
        ReadsTwo limit then_limit bytes.now a sign b rest → ⊥) }
{
    let (first, rest) = number_in_front(bytes, limit)?;
    let [sign, rest @ ..] = rest else {
        return None;
    };
    let (second, rest) = number_in_front(rest, then_limit)?;
    Some((first, *sign, second, rest))
}

// The number from 1 to `most` in front, behind a space, and what follows its last digit.
pub(crate) fn number_word(bytes: &[u8], most: u64) -> Option<(u64, &[u8])>
    ensures some { IfSome result (λ read. ReadsWord decimal (IsFromOneTo most) bytes.now read.0 read.1.now) }
    ensures none { IfNone result ((n : ℕ) (rest : List ℕ) → ReadsWord decimal (IsFromOneTo most) bytes.now n rest → ⊥) }
{
    let word = behind(bytes, b" ")?;
    number_in_front(word, most)
}

// The number from 0 to `most` in front, behind a space, and what follows its last digit.
pub(crate) fn count_word(bytes: &[u8], most: u64) -> Option<(u64, &[u8])>
    ensures some { IfSome result (λ read. ReadsWord decimal (λ n. n ≤ most) bytes.now read.0 read.1.now) }
    ensures none { IfNone result ((n : ℕ) (rest : List ℕ) → ReadsWord decimal (λ n. n ≤ most) bytes.now n rest → ⊥) }
{
    let word = behind(bytes, b" ")?;
    let (digits, rest) = split_digits(word);
    let n = read_number(digits, most)?;
    Some((n, rest))
}

// The one number from 1 to `most` that the words give.
pub(crate) fn one_number(words: &[u8], most: u64) -> Option<u64>
    ensures { Spells one_word (IsFromOneTo most) words.now result }
{
    let word = behind(words, b" ")?;
    number_of(word, most)
}

// The two numbers from 1 to these limits that the words give.
pub(crate) fn two_numbers(words: &[u8], limit: u64, then_limit: u64) -> Option<(u64, u64)>
    ensures { Spells two_words (AreFromOneTo limit then_limit) words.now result }
{
    let (first, rest) = number_word(words, limit)?;
    let second = one_number(rest, then_limit)?;
    Some((first, second))
}
