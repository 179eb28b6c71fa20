//! What the packets of a run fit: each packet that any step of a run puts into the bag has a spelling, so the bytes
//! that stand for it are read as that packet.
//!
//! It has no code: its two laws say so of the first world and of every step.
#![tactic(auto)]

pub mod laws;
