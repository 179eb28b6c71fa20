//! The text of an import.

ghost use Rattle.std.specs.Prelude.{◌≡◌, ◌++◌, ◌+◌, ◌^◌, ◌<◌, [], ◌∷◌, length, flat_map, codes, OnOk};
ghost use Rattle.std.specs.Fmt.{decimal};
ghost use Rattle.clock_import.specs.Text.{clock_text, event_line, event_lines, pair_line, order_text, import_text};

use crate::{Clocked, Imported};
use kr_order::{EventId, NoMemory};
use kr_text::put_number;

/// Puts a line for each event, as `event 3 p2 clock 1,1`, then `pairs N` and a line `a!b` for each pair, and then `end`
/// behind what `out` holds. After `NoMemory` a part of that may stand there.
pub fn put_import(out: &mut Vec<u8>, imported: &Imported) -> Result<(), NoMemory>
    ensures { OnOk result (out.new.items ≡ out.old.items ++ import_text imported.now) }
{
    put_events(out, 0, imported.events.as_slice())?;
    put_order(out, imported.pairs.as_slice())
}

/// Puts `pairs N` and a line `a!b` for each of these pairs, and then `end`, behind what `out` holds. After `NoMemory` a
/// part of that may stand there.
pub fn put_order(out: &mut Vec<u8>, pairs: &[(EventId, EventId)]) -> Result<(), NoMemory>
    ensures { OnOk result (out.new.items ≡ out.old.items ++ order_text pairs.now) }
{
    put_text(out, b"pairs ")?;
    put_number(out, pairs.len() as u64)?;
    put_text(out, b"\n")?;
    put_pairs(out, pairs)?;
    put_text(out, b"end\n")
}

// The text.
fn put_text(out: &mut Vec<u8>, text: &[u8]) -> Result<(), NoMemory>
    ensures { OnOk result (out.new.items ≡ out.old.items ++ text.now) }
{
    out.extend_from_slice(text)?;
    Ok(())
}

/// Puts the line of each of these events, as `event 3 p2 clock 1,1`, behind what `out` holds; `before` events come before
/// the first of them. After `NoMemory` a part of that may stand there.
pub fn put_events(out: &mut Vec<u8>, before: usize, events: &[Clocked]) -> Result<(), NoMemory>
    requires { before + length events.now < 2 ^ 64 }
    ensures { OnOk result (out.new.items ≡ out.old.items ++ event_lines (before + 1) events.now) }
{
    for (i, clocked) in events.iter().enumerate() {
        put_event(out, before + i, clocked)?;
    }
    Ok(())
}

// The line of the event at the index.
fn put_event(out: &mut Vec<u8>, i: usize, clocked: &Clocked) -> Result<(), NoMemory>
    requires { i + 1 < 2 ^ 64 }
    ensures { OnOk result (out.new.items ≡ out.old.items ++ event_line (i + 1) clocked.now) }
{
    put_text(out, b"event ")?;
    put_number(out, i as u64 + 1)?;
    put_text(out, b" p")?;
    put_number(out, u64::from(clocked.process))?;
    put_text(out, b" clock ")?;
    put_clock(out, clocked.clock.as_slice())?;
    put_text(out, b"\n")
}

// The digit.
fn put_digit(out: &mut Vec<u8>, digit: u16) -> Result<(), NoMemory>
    requires { digit < 10 }
    ensures { OnOk result (out.new.items ≡ out.old.items ++ (48 + digit) ∷ []) }
{
    out.push(b'0' + digit as u8)?;
    Ok(())
}

// The number, of one digit or two.
#[tactic(auto, using(crate::proofs::PrintLemmas::put_one, crate::proofs::PrintLemmas::put_second))]
fn put_few(out: &mut Vec<u8>, n: u16) -> Result<(), NoMemory>
    requires { n < 100 }
    ensures { OnOk result (out.new.items ≡ out.old.items ++ decimal n) }
{
    if n >= 10 {
        put_digit(out, n / 10)?;
    }
    put_digit(out, n % 10)
}

// A number of a clock: most are small, and are put digit by digit.
#[tactic(auto, using(crate::proofs::PrintLemmas::put_last))]
fn put_part(out: &mut Vec<u8>, part: u16) -> Result<(), NoMemory>
    ensures { OnOk result (out.new.items ≡ out.old.items ++ decimal part) }
{
    if part >= 1000 {
        return put_number(out, u64::from(part));
    }
    if part < 100 {
        return put_few(out, part);
    }
    put_few(out, part / 10)?;
    put_digit(out, part % 10)
}

// The numbers of the clock, with a comma between two.
fn put_clock(out: &mut Vec<u8>, clock: &[u16]) -> Result<(), NoMemory>
    ensures { OnOk result (out.new.items ≡ out.old.items ++ clock_text clock.now) }
{
    let [part, parts @ ..] = clock else {
        return Ok(());
    };
    put_part(out, *part)?;
    put_parts(out, parts)
}

// The numbers, with a comma before each.
fn put_parts(out: &mut Vec<u8>, parts: &[u16]) -> Result<(), NoMemory>
    ensures { OnOk result (out.new.items ≡ out.old.items ++ flat_map (λ part. codes "," ++ decimal part) parts.now) }
{
    for part in parts {
        out.push(b',')?;
        put_part(out, *part)?;
    }
    Ok(())
}

// The lines of the pairs.
fn put_pairs(out: &mut Vec<u8>, pairs: &[(EventId, EventId)]) -> Result<(), NoMemory>
    ensures { OnOk result (out.new.items ≡ out.old.items ++ flat_map pair_line pairs.now) }
{
    for pair in pairs {
        put_pair(out, pair)?;
    }
    Ok(())
}

// The line of a pair.
fn put_pair(out: &mut Vec<u8>, pair: &(EventId, EventId)) -> Result<(), NoMemory>
    ensures { OnOk result (out.new.items ≡ out.old.items ++ pair_line pair.now) }
{
    put_number(out, pair.0.0)?;
    put_text(out, b"!")?;
    put_number(out, pair.1.0)?;
    put_text(out, b"\n")
}
