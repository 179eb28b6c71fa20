//! Laws of spellings. Each function does nothing: its contract is the law, whose proof is checked with it.

ghost use Rattle.kr_wire.specs.Laws.{ASpellingIsOfOneValue, NoSpellingBeginsAnother, SpellingsAreAsLongAsCounted};
ghost use Rattle.kr_wire.specs.Laws.{TheFirstPacketsAreSpeltSo};

/// Bytes begin with the spelling of at most one packet, of one entry and of one reply, and it ends at one place.
#[tactic(auto, using(crate::proofs::LawLemmas::values_are_spelt_once))]
pub fn a_spelling_is_of_one_value()
    ensures { ASpellingIsOfOneValue }
{}

/// No spelling of a packet is a proper front of another.
#[tactic(auto, using(crate::proofs::LawLemmas::no_spelling_begins_another))]
pub fn no_spelling_begins_another()
    ensures { NoSpellingBeginsAnother }
{}

/// A packet's spelling has as many bytes as `Packet::wire_len` counts.
#[tactic(auto, using(crate::proofs::LawLemmas::spellings_are_as_long_as_counted))]
pub fn spellings_are_as_long_as_counted()
    ensures { SpellingsAreAsLongAsCounted }
{}

/// This is how the two packets of the smallest run are spelt.
#[tactic(auto, using(crate::proofs::LawLemmas::the_first_packets))]
pub fn the_first_packets_are_spelt_so()
    ensures { TheFirstPacketsAreSpeltSo }
{}
