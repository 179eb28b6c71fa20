//! One server of a chain: its log, the board of what it has applied, and its reaction to each message.
//!
//! Contracts see a `Server` as the server of the protocol's definitions, and whether it has failed. A server
//! fails where a call on it finds no memory; each later call that can answer `NoMemory` then does. What the
//! board stands for is always the acknowledged prefix of the log, and queries are answered from it alone. A server
//! that is to join has no view at first, and takes no notice of anything but a view that names it.
#![tactic(auto)]

mod advance;
mod effects;
mod replies;
mod server;
mod told;

pub use effects::Effects;
pub use server::Server;
