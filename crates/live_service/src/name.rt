//! The name of the copies behind a turn.

/// Tells the copies of one service from those of another, in proofs alone. No value of it is made.
pub struct CopiesName {
    pub number: u64,
    pub log_name: u64,
    pub cells_name: u64,
}
