//! What is counted of the steps.

ghost use Rattle.std.specs.Prelude.{◌≡◌, count_by};
ghost use Rattle.kr_world.specs.Counts.{is_before, befores_of};
ghost use Rattle.cluster_parts.specs.PartsStanding.{parts_in};

use cluster_parts::{Noted, PartsTelling};
use kr_order::{Answer, ToldPart};

// Whether the part was told as before.
fn is_before(part: &ToldPart) -> bool
    ensures { result ≡ is_before part.now.answer }
{
    matches!(part.answer, Answer::Before)
}

// How many of these parts were.
fn befores_of(parts: &[ToldPart]) -> usize
    ensures { result ≡ count_by (λ part. is_before part.answer) parts.now }
{
    parts.iter().filter(|part| is_before(part)).count()
}

// How many of the parts that one client was told were.
fn befores_to(telling: &PartsTelling) -> u64
    ensures { result ≡ count_by (λ part. is_before part.answer) telling.now.parts }
{
    befores_of(telling.parts.as_slice()) as u64
}

/// How many of the parts that were noted of a step were told as before.
pub fn befores(noted: &Noted) -> u64
    ensures { result ≡ befores_of (parts_in noted.now.parts) }
{
    match &noted.parts {
        Some(telling) => befores_to(telling),
        None => 0,
    }
}
