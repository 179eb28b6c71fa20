//! How many bytes a packet takes on the way.

ghost use Rattle.std.specs.Prelude.{◌≡◌, ◌≤◌, min};
ghost use Rattle.kr_order.specs.Size.{command_size, entry_size, entries_size, reply_size, view_size, message_size, packet_size};

use crate::{Command, Entry, Message, Packet, Reply, View};

// A tag, and what follows it.
fn command_size(command: &Command) -> u64
    ensures value { result ≡ command_size command.now }
    ensures most { result ≤ 546 }
{
    match command {
        Command::Create => 1,
        Command::Assign(batch) => 2 + 17 * batch.len() as u64,
        Command::Acquire(_) | Command::Release(_) => 9,
    }
}

// A client, a number and a command.
fn entry_size(entry: &Entry) -> u64
    ensures { result ≡ entry_size entry.now }
{
    12 + command_size(&entry.command)
}

// All entries, or the greatest number where they take more.
fn entries_size(entries: &[Entry]) -> u64
    ensures { result ≡ min (entries_size entries.now) u64.MAX }
{
    let mut size: u64 = 0;
    for entry in entries {
        size = size.saturating_add(entry_size(entry));
    }
    size
}

fn reply_size(reply: &Reply) -> u64
    ensures { result ≡ min (reply_size reply.now) u64.MAX }
{
    match reply {
        Reply::Created(_) | Reply::Count(_) => 9,
        Reply::Assigned(outcomes) => (outcomes.len() as u64).saturating_add(2),
        Reply::Unknown(_) | Reply::Contradicts(_) => 5,
    }
}

fn view_size(view: &View) -> u64
    ensures { result ≡ min (view_size view.now) u64.MAX }
{
    (view.chain.len() as u64)
        .saturating_mul(4)
        .saturating_add(13)
}

fn message_size(message: &Message) -> u64
    ensures { result ≡ min (message_size message.now) u64.MAX }
{
    match message {
        Message::Request { command, .. } => 8 + command_size(command),
        Message::Append { entries, .. } => entries_size(entries.as_slice()).saturating_add(9),
        Message::Ack { .. } => 16,
        Message::NewView { view } => view_size(view),
        Message::Replied { placed, .. } => reply_size(&placed.reply).saturating_add(16),
        Message::Ask { pairs, .. } => 10 + 16 * pairs.len() as u64,
        Message::Answered { told, .. } => (told.answers.len() as u64).saturating_add(18),
        Message::Refer { view, .. } => view_size(view).saturating_add(9),
        Message::Joined { .. } => 4,
    }
}

impl Packet {
    /// How many bytes the packet's fields take: version, kind, sender, addressee, and what the message says. A
    /// packet whose lists have no more items than the formats allow has less than 9,000; where a longer one would
    /// take more than a `u64` counts, the answer is the greatest `u64`. It takes no memory.
    pub fn wire_len(&self) -> u64
        ensures { result ≡ min (packet_size self.now) u64.MAX }
    {
        message_size(&self.message).saturating_add(10)
    }
}
