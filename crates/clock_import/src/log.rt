//! The lines of a log.

/// What a process did.
#[derive(Clone, Copy, Debug, PartialEq, Eq)]
pub enum Act {
    /// A step that no other process has part in.
    Local,
    /// It sent the message with this number.
    Send(u64),
    /// It received it.
    Receive(u64),
    /// The line says nothing that the grammar has.
    Bad,
}

/// One line after the first: what one process did. Processes are numbered from 1.
#[derive(Clone, Copy, Debug, PartialEq, Eq)]
pub struct LogLine {
    pub process: u32,
    pub act: Act,
}
