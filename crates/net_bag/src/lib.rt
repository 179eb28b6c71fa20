//! The packets of a run, each as its bytes.
//!
//! Contracts see a `Bag` as the list of the spellings of all packets that were ever sent, and two lists of marks
//! beside it: which packets were lost, and which were delivered. A packet's number is its place in the list, from 1;
//! it keeps it for good. Each item is the spelling of a packet. Which packet is still to be delivered is looked up
//! in words of bits, without a walk over the packets.
#![tactic(auto)]

mod bag;
mod bits;
mod segments;

pub use bag::Bag;
