//! What the table's rule knows of each seat, and what the table is told once. Proofs alone read these.

use std::snapshot::Snapshot;

// How a seat holds the turn.
pub struct Hold {
    // how many entries the value had when it was taken
    pub count: u64,
    // the history word was raised since
    pub is_raised: bool,
}

// What a seat has done and seen. No value of it is made.
pub struct Standing<N> {
    // how many of the turn's seats it stands for; 0 where it was joined into another
    pub parts: u64,
    // how many entries it gave
    pub gives: u64,
    // how often it found the turn taken
    pub empties: u64,
    // the greatest count of the history that it saw
    pub seen: u64,
    // the name of the turn's value
    pub name: N,
    // whether it holds the turn, and how
    pub hold: Option<Hold>,
}

// What a turn was made with.
pub struct About<T> {
    pub value: Snapshot<T>,
    pub seats: u64,
}

impl<T> Drop for About<T> {
    fn drop(self) {
        let About { value: _, seats: _ } = self;
    }
}
