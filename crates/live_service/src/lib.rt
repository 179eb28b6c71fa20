//! The service on threads: one history, to which many threads add commands, each by a pass of its own, and of which they
//! ask without waiting.
//!
//! A service is made with up to sixteen passes, one for each client. A pass makes commands, one at a time by the turn, and
//! asks the copy of the order that is published; it meets another pass to be told of all that this one has done. Contracts
//! see a pass by the beginning of the history that it was told of, and by how many of its commands were answered. At the
//! end the history has those commands, each once, and no others.
#![tactic(auto)]

mod behind;
mod calls;
mod close;
mod command;
pub mod laws;
mod name;
mod pass;
mod reply;
mod run;
mod service;

pub use calls::{CallAnswers, LiveAnswer};
pub use command::TryStop;
pub use name::CopiesName;
pub use order_board::QueryStop;
pub use pass::{Pass, Passes};
pub use run::{ClientAnswers, LiveRun, run_live};
pub use service::Service;
