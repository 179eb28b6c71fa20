//! Numbers as text: decimal digits with no sign and no zero in front.

ghost use Rattle.std.specs.Prelude.{◌≡◌, ◌≢◌, ℕ, ◌^◌, ◌<◌, ◌≤◌, ◌↔◌, ◌++◌, IsTrue, IfSome, IfNone, OnOk, OnErr};
ghost use Rattle.std.specs.Fmt.{decimal};
ghost use Rattle.kr_text.specs.Number.{BeginsPlain};

use itoa::Buffer;
use kr_order::NoMemory;
use std::str;

// Whether the text begins as a number's text may.
fn begins_plain(text: &[u8]) -> bool
    ensures { IsTrue result ↔ BeginsPlain text.now }
{
    match text {
        [] | [b'+', ..] => false,
        [b'0', rest @ ..] => rest.is_empty(),
        _ => true,
    }
}

// The number that the text spells in the one way there is.
fn parse_plain(text: &[u8]) -> Option<u64>
    ensures some { IfSome result (λ n. text.now ≡ decimal n) }
    ensures none { IfNone result ((n : ℕ) → n < 2 ^ 64 → text.now ≢ decimal n) }
{
    if !begins_plain(text) {
        return None;
    }
    let Ok(digits) = str::from_utf8(text) else {
        return None;
    };
    digits.parse::<u64>().ok()
}

/// The number that the text spells, if it is at most `most`.
///
/// A text spells a number in one way: `0`, or a digit from 1 to 9 and then digits. So the empty text, a sign,
/// a zero in front of a digit and any other byte are answered by `None`, as is a greater number.
pub fn read_number(text: &[u8], most: u64) -> Option<u64>
    ensures some { IfSome result (λ n. (n ≤ most) × (text.now ≡ decimal n)) }
    ensures none { IfNone result ((n : ℕ) → n ≤ most → text.now ≢ decimal n) }
{
    let n = parse_plain(text)?;
    if n <= most { Some(n) } else { None }
}

/// Writes the number's digits, at most 20 bytes, behind what `out` holds. `NoMemory` comes where there is no
/// memory for them, and leaves `out` as it was.
pub fn put_number(out: &mut Vec<u8>, n: u64) -> Result<(), NoMemory>
    ensures ok { OnOk result (out.new.items ≡ out.old.items ++ decimal n) }
    ensures err { OnErr result (out.new.items ≡ out.old.items) }
{
    let mut digits = Buffer::new();
    out.extend_from_slice(digits.format(n).as_bytes())?;
    Ok(())
}
