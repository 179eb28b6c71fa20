//! What is shown of a server.

use kr_order::ServerId;

/// What is shown of a server: the number of its view, how many entries its log has and how many of them are
/// acknowledged, how many events and pairs of the acknowledged ones are held, and how many queries wait.
#[derive(Clone, Copy, Debug, PartialEq, Eq)]
pub struct Shown {
    pub server: ServerId,
    /// 0 where the server has adopted none.
    pub view: u64,
    pub log: u64,
    pub done: u64,
    pub held: u64,
    pub pairs: u64,
    pub waiting: u64,
}
