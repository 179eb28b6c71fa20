//! A chain on threads: a head, a middle and a tail, each with its own copies of the order, which agree on one history while
//! they really run at the same time.
//!
//! The entries of a plan go along rings, from node to node. Each node applies them to its copies, and a reader beside it
//! answers its queries without waiting for it. Contracts see of a run the three journals and what the readers told: the
//! journals are one, and each answer is that of a beginning of it.
#![tactic(auto)]

mod compare;
mod copies;
mod feed;
mod node;
mod reader;
mod ring;
mod run;
mod stage;

pub use reader::Tolds;
pub use run::{ChainNode, ChainRun, run_chain};
