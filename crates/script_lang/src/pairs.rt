//! The pairs of a line, each a word behind a space.

ghost use Rattle.std.specs.Prelude.{ℕ, List, IfOk, IfSome, IfNone};
ghost use Rattle.script_lang.specs.Number.{BeginsNoDigit};
ghost use Rattle.script_lang.specs.Event.{ArePairs};
ghost use Rattle.script_lang.specs.Reading.{IsReadOnce, ReadsWord, Spells, words};

use crate::line::behind;
use crate::numbers::two_in_front;
use kr_order::{Capped, EventId, Kind, NoMemory, Pair, PushStop};
use std::alloc::Global;

// A pair that a line spells as one word. Contracts see its word, and whether a line may give it.
pub(crate) trait Spelt: Sized + Drop {
    ghost word: { Self → List ℕ };

    ghost fits: { Self → Type 0 };

    // The pair in front, behind a space, and what follows its word.
    fn in_front(bytes: &[u8]) -> Option<(Self, &[u8])>
        ensures some { IfSome result (λ read. ReadsWord word fits bytes.now read.0 read.1.now) }
        ensures none { IfNone result ((pair : Self) (rest : List ℕ) → ReadsWord word fits bytes.now pair rest → ⊥) };
}

impl Spelt for Pair {
    ghost use Rattle.kr_order.specs.Text.{pair_word};
    ghost use Rattle.script_lang.specs.Event.{IsPair};

    ghost word = { pair_word };

    ghost fits = { IsPair };

    fn in_front(bytes: &[u8]) -> Option<(Self, &[u8])> {
        let word = behind(bytes, b" ")?;
        let (first, sign, second, rest) = two_in_front(word, u64::MAX, u64::MAX)?;
        let kind = if sign == b'!' {
            Kind::Must
        } else if sign == b'?' {
            Kind::Prefer
        } else {
            return None;
        };
        let pair = Pair {
            first: EventId(first),
            second: EventId(second),
            kind,
        };
        Some((pair, rest))
    }
}

impl Spelt for (EventId, EventId) {
    ghost use Rattle.kr_order.specs.Text.{asked_word};
    ghost use Rattle.script_lang.specs.Event.{IsAskedPair};

    ghost word = { asked_word };

    ghost fits = { IsAskedPair };

    fn in_front(bytes: &[u8]) -> Option<(Self, &[u8])> {
        let word = behind(bytes, b" ")?;
        let (first, sign, second, rest) = two_in_front(word, u64::MAX, u64::MAX)?;
        if sign != b',' {
            return None;
        }
        Some(((EventId(first), EventId(second)), rest))
    }
}

// The pairs that the words spell.
pub(crate) fn pairs_of<P: Spelt>(alloc: Global, text: &[u8]) -> Result<Option<Capped<P>>, NoMemory>
    requires front { BeginsNoDigit text.now }
    requires one_way { IsReadOnce P.word P.fits }
    ensures { IfOk result (λ read. Spells (words P.word) (ArePairs P.fits) text.now read) }
{
    let mut pairs = Capped::new(alloc);
    let mut rest = text;
    while !rest.is_empty() {
        let Some((pair, more)) = P::in_front(rest) else {
            return Ok(None);
        };
        match pairs.push(pair) {
            Ok(()) => rest = more,
            Err(PushStop::Full) => return Ok(None),
            Err(PushStop::NoMemory) => return Err(NoMemory),
        }
    }
    Ok(Some(pairs))
}
