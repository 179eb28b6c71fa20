//! Scripts: the lines that say what a run of the cluster does, step by step.
//!
//! A script is lines, each ended by LF, in exactly one spelling: the first, `cluster N C`, gives the numbers of
//! servers, 1 to 8, and of clients, 1 to 16; each of the others is one event, told by its first word. The grammar is
//! stated as the printing of a script; a reader answers the script that is spelt so, or the number of the first line
//! that is in no script, and a printer writes each line. The texts of entries, replies and answers, which transcripts
//! have too, are printed here.
//!
//! Live input has lines of its own: the first, `live C`, gives the number of clients, and each of the others is a call of
//! one of them. The input of a chain has lines again: the first, `chain`, then commands, and queries of its three nodes.
//! Both grammars are stated, and read, in the same way.
#![tactic(auto)]

mod chain;
pub mod chain_laws;
mod events;
pub mod laws;
mod line;
mod live;
mod numbers;
mod pairs;
mod print;
mod put;
mod read;
mod script;
mod words;

pub use chain::{ChainLine, ChainPlan, ChainQueries, ChainQuery, read_chain};
pub use live::{LiveCall, LiveCalls, LivePlan, read_live};
pub use print::{print_first, print_line};
pub use put::{put_answer_text, put_done, put_reply_text};
pub use read::{ScriptStop, read_script};
pub use script::{Event, Script, ScriptEvents};
