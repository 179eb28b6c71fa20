//! The kinds of messages, and who sends and gets them.

ghost use Rattle.std.specs.Prelude.{◌≡◌};
ghost use Rattle.kr_wire.specs.Reading.{kind_by, sender_by, addressee_by};

/// A kind of party to the protocol.
#[derive(Clone, Copy, Debug, PartialEq, Eq)]
pub enum Party {
    Manager,
    Client,
    Server,
}

/// A kind of message.
#[derive(Clone, Copy, Debug, PartialEq, Eq)]
pub enum MessageKind {
    Request,
    Append,
    Ack,
    NewView,
    Ask,
    Replied,
    Answered,
    Refer,
    Joined,
}

// The kind of message with this number, from 1 to 9.
pub(crate) fn kind_by(number: u8) -> MessageKind
    ensures { result ≡ kind_by number }
{
    match number {
        1 => MessageKind::Request,
        2 => MessageKind::Append,
        3 => MessageKind::Ack,
        4 => MessageKind::NewView,
        5 => MessageKind::Ask,
        6 => MessageKind::Replied,
        7 => MessageKind::Answered,
        8 => MessageKind::Refer,
        _ => MessageKind::Joined,
    }
}

impl MessageKind {
    // Who sends a message of this kind.
    pub(crate) fn sender(self) -> Party
        ensures { result ≡ sender_by self }
    {
        match self {
            MessageKind::NewView => Party::Manager,
            MessageKind::Request | MessageKind::Ask => Party::Client,
            MessageKind::Append
            | MessageKind::Ack
            | MessageKind::Replied
            | MessageKind::Answered
            | MessageKind::Refer
            | MessageKind::Joined => Party::Server,
        }
    }

    // Who gets a message of this kind.
    pub(crate) fn addressee(self) -> Party
        ensures { result ≡ addressee_by self }
    {
        match self {
            MessageKind::Joined => Party::Manager,
            MessageKind::Replied | MessageKind::Answered | MessageKind::Refer => Party::Client,
            MessageKind::Request
            | MessageKind::Append
            | MessageKind::Ack
            | MessageKind::NewView
            | MessageKind::Ask => Party::Server,
        }
    }
}
