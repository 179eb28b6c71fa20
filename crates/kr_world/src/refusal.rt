//! Why a step is refused.

ghost use Rattle.std.specs.Prelude.{Some};
ghost use Rattle.kr_world.specs.Refusal.{refusal_word};

use std::fmt;

/// Why a step is refused. A refused step changes nothing.
#[derive(Clone, Copy, Debug, PartialEq, Eq)]
pub enum Refusal {
    /// There is no client of that number.
    NoSuchClient,
    /// There is no server of that number.
    NoSuchServer,
    /// No packet of that number was sent.
    NoSuchPacket,
    /// The server, or the addressee of the packet, has stopped.
    Stopped,
    /// The client has an open call.
    Busy,
    /// The client has no open call.
    NothingOpen,
    /// The packet was lost.
    Lost,
    /// The server is in the chain of the current view, and all other members of it have stopped.
    LastServer,
    /// The server has not stopped.
    NotStopped,
    /// The current view does not name the server.
    NotMember,
    /// The current view has a joiner.
    JoinerThere,
    /// 64 servers were made.
    ServersSpent,
    /// Before the step 65,000 packets or more were sent, or packets of 268,435,456 bytes or more.
    BagFull,
}

impl fmt::Display for Refusal {
    ghost output = { λ refusal. Some (refusal_word refusal) };

    fn fmt<W: fmt::Write>(&self, f: &mut fmt::Formatter<W>) -> fmt::Result {
        match self {
            Refusal::NoSuchClient => write!(f, "NoSuchClient"),
            Refusal::NoSuchServer => write!(f, "NoSuchServer"),
            Refusal::NoSuchPacket => write!(f, "NoSuchPacket"),
            Refusal::Stopped => write!(f, "Stopped"),
            Refusal::Busy => write!(f, "Busy"),
            Refusal::NothingOpen => write!(f, "NothingOpen"),
            Refusal::Lost => write!(f, "Lost"),
            Refusal::LastServer => write!(f, "LastServer"),
            Refusal::NotStopped => write!(f, "NotStopped"),
            Refusal::NotMember => write!(f, "NotMember"),
            Refusal::JoinerThere => write!(f, "JoinerThere"),
            Refusal::ServersSpent => write!(f, "ServersSpent"),
            Refusal::BagFull => write!(f, "BagFull"),
        }
    }
}
