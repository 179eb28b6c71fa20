//! Bytes that come from outside and go there, the numbers written in them, and gates that calls are led through.
//!
//! Contracts see a `Source` by the bytes that it has left and a `Sink` by the bytes that it holds, where the
//! type tells them, and both by a count of faults that never falls. An answer that blames the outside comes
//! only where that count rose, or stands at its end.
#![tactic(auto)]

mod gate;
mod memory;
mod number;
mod outside;
mod read;
mod real;
mod write;

pub use gate::{Gate, OpenGate, Point};
pub use memory::{FailingSink, FailingSource, NoFaultSink, NoFaultSource};
pub use number::{put_number, read_number};
pub use outside::{Failed, Sink, Source};
pub use read::{ReadStop, read_all};
pub use real::{StdSink, StdSource};
pub use write::{WriteStop, write_all};
