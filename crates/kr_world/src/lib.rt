//! The world that a script steps: servers, clients, every packet that was sent, and the history; what each
//! event does to it, what a transcript says of that, and the laws of whole runs.
//!
//! It has no code but why a step is refused, with its word, and the type of what is shown of a server: a cluster's contract
//! says that it does these steps.
#![tactic(auto)]

pub mod laws;
mod refusal;
mod shown;

pub use refusal::Refusal;
pub use shown::Shown;
