//! Gates: who is told how far a call has come, and may keep its thread there.

use kr_order::ClientId;

/// How far a call has come.
#[derive(Clone, Copy, Debug, PartialEq, Eq)]
pub enum Point {
    /// It has not begun.
    Before,
    /// It has the turn.
    Holding,
    /// It has its answer.
    After,
}

/// What each call of a client is led through.
///
/// A gate changes no answer, so no contract speaks of one. A gate that keeps a thread has to let it go again by itself.
pub trait Gate {
    /// The client's call of this number, counted from 1, has come to this point.
    fn at(&self, client: ClientId, call: u32, point: Point);
}

/// A gate that keeps nobody.
#[derive(Clone, Copy, Debug, Drop)]
pub struct OpenGate;

impl Gate for OpenGate {
    fn at(&self, _client: ClientId, _call: u32, _point: Point) {}
}
