//! A gate that keeps one client's first call until another's first call has passed.

use kr_order::ClientId;
use kr_text::{Gate, Point};
use std::sync::atomic::{AtomicU64, Ordering};
use std::thread;

// The most turns that a gate keeps a thread.
pub const TURNS: u64 = 1_000_000;

/// A door that one thread opens and another waits at.
#[derive(Drop)]
pub struct OneDoor {
    is_open: AtomicU64,
    turns: AtomicU64,
}

impl OneDoor {
    /// A door that is not open.
    pub fn new() -> OneDoor {
        OneDoor {
            is_open: AtomicU64::new(0),
            turns: AtomicU64::new(0),
        }
    }

    /// Opens it.
    pub fn open(&self) {
        self.is_open.store(1, Ordering::SeqCst);
    }

    /// Waits until it is open, for so many turns at the most.
    pub fn wait(&self) {
        for turn in 0..TURNS {
            if self.is_open.load(Ordering::SeqCst) == 1 {
                self.turns.store(turn, Ordering::SeqCst);
                return;
            }
            thread::yield_now();
        }
        self.turns.store(TURNS, Ordering::SeqCst);
    }

    /// Whether nobody waited for all turns.
    pub fn was_in_time(&self) -> bool {
        self.turns.load(Ordering::SeqCst) < TURNS
    }
}

/// Keeps the first call of a client at this point, until the first call of another client has its answer.
#[derive(Drop)]
pub struct Keeping {
    pub kept: u32,
    pub point: Point,
    pub awaited: u32,
    pub door: OneDoor,
}

impl Gate for Keeping {
    fn at(&self, client: ClientId, call: u32, point: Point) {
        if call == 1 && client.0 == self.awaited && point == Point::After {
            self.door.open();
        }
        if call == 1 && client.0 == self.kept && point == self.point {
            self.door.wait();
        }
    }
}
