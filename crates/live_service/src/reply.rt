//! A second reply, for which the memory is taken before the first is there.

ghost use Rattle.std.specs.Prelude.{◌≡◌, ◌≤◌, [], IfOk, length, vec_capacity};
ghost use Rattle.live_service.specs.Commands.{HasRoom, outcomes_in};

use kr_order::{Command, NoMemory, Outcome, Outcomes, Reply};
use std::alloc::Global;

// Room for the outcomes of the command, if it has any.
pub(crate) fn room_for(alloc: Global, command: &Command) -> Result<Vec<Outcome>, NoMemory>
    ensures empty { IfOk result (λ room. room.items ≡ []) }
    ensures room { IfOk result (λ room. outcomes_in command.now ≤ vec_capacity room) }
{
    match command {
        Command::Assign(batch) => Ok(Vec::with_capacity(alloc, batch.len())?),
        _ => Ok(Vec::new(alloc)),
    }
}

// The reply once more. It takes no memory.
pub(crate) fn twin_of(reply: &Reply, room: Vec<Outcome>) -> Reply
    requires empty { room.items ≡ [] }
    requires room { HasRoom (vec_capacity room) reply.now }
    ensures { result ≡ reply.now }
{
    match reply {
        Reply::Created(event) => Reply::Created(*event),
        Reply::Assigned(outcomes) => Reply::Assigned(filled(room, outcomes)),
        Reply::Count(count) => Reply::Count(*count),
        Reply::Unknown(index) => Reply::Unknown(*index),
        Reply::Contradicts(index) => Reply::Contradicts(*index),
    }
}

// The outcomes, in the room for them.
fn filled(mut room: Vec<Outcome>, outcomes: &Outcomes) -> Outcomes
    requires empty { room.items ≡ [] }
    requires room { length outcomes.now ≤ vec_capacity room }
    ensures { result ≡ outcomes.now }
{
    for outcome in outcomes.as_slice() {
        room.push_reserved(*outcome);
    }
    Outcomes::from_vec(room)
}
