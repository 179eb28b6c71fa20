//! How a turn is made: its table, and its seats.

ghost use Rattle.std.specs.Prelude.{◌≡◌, ◌<◌, ◌≤◌, [], ◌∷◌, IfOk, IfErr, vec_len, vec_capacity};
ghost use Rattle.replica_lock.specs.Rule.{standing_for};

use crate::rule::{Halve, TurnRule};
use crate::standing::{About, Standing};
use crate::{Held, MOST_SEATS, Seats, TurnSeat, TurnStop};
use atomic_table::{Refused, Seat, Table};
use std::alloc::Global;
use std::snapshot::Snapshot;

pub type TurnTable<T> = Table<Option<T>, Standing<<T as Held>::Name>, About<T>, TurnRule, Global>;

pub type FirstSeat<T> = Seat<Option<T>, Standing<<T as Held>::Name>>;

// A row of the one slot, with the value in it.
fn slot_with<T>(alloc: Global, value: T) -> Result<Vec<Option<T>>, TurnStop<T>>
    ensures ok { IfOk result (λ slots. slots.items ≡ Some value ∷ []) }
    ensures err { IfErr result (λ stop. stop ≡ TurnStop.NoMemory value) }
{
    let Ok(mut slots) = Vec::with_capacity(alloc, 1) else {
        return Err(TurnStop::NoMemory { value });
    };
    slots.push_reserved(Some(value));
    Ok(slots)
}

// The table, and a seat of it that stands for all seats.
pub(crate) fn lay<T: Held>(
    alloc: Global,
    value: T,
    seats: u32,
) -> Result<(TurnTable<T>, FirstSeat<T>), TurnStop<T>>
    requires seats { seats ≤ MOST_SEATS }
    requires count { T.count_of value ≡ 0 }
    ensures words { IfOk result (λ made. made.0.shared.table_id.words ≡ 2) }
    ensures slots { IfOk result (λ made. made.0.shared.table_id.slots ≡ 1) }
    ensures value { IfOk result (λ made. made.0.shared.key.value.value ≡ value) }
    ensures seats { IfOk result (λ made. made.0.shared.key.seats ≡ seats) }
    ensures table { IfOk result (λ made. made.1.table_id ≡ made.0.shared.table_id) }
    ensures seat { IfOk result (λ made. made.1.me ≡ (standing_for (T.name_of value) seats, [])) }
    ensures err { IfErr result (λ stop. stop ≡ TurnStop.NoMemory value) }
{
    let about = About {
        value: Snapshot::of(&value),
        seats: seats as u64,
    };
    let slots = slot_with(alloc, value)?;
    match Table::new(alloc, &[0, 0], slots, &about) {
        Ok(made) => Ok(made),
        Err(Refused { mut slots }) => {
            let value = slots.pop().unwrap().unwrap();
            slots.destroy_empty();
            Err(TurnStop::NoMemory { value })
        }
    }
}

// All seats of the table, each split off the one that stands for them.
pub(crate) fn seat_all<T: Held>(
    table: &TurnTable<T>,
    mut rest: FirstSeat<T>,
    mut room: Vec<TurnSeat<T>>,
    count: u32,
) -> Seats<T>
    requires table { rest.table_id ≡ table.now.shared.table_id }
    requires words { 0 < table.now.shared.table_id.words }
    requires rest { rest.me ≡ (standing_for rest.me.0.name count, []) }
    requires room { (room.items ≡ []) × (0 < count) × (count ≤ vec_capacity room) }
    ensures { result ≡ record { table = rest.table_id; name = rest.me.0.name; left = count } }
{
    let others = (count - 1) as usize;
    while room.len() < others {
        let seat = table.shared.split_seat::<Halve>(&mut rest);
        room.push_reserved(TurnSeat {
            seat,
            gives: 0,
            taken: 0,
        });
    }
    let last = TurnSeat {
        seat: rest,
        gives: 0,
        taken: 0,
    };
    let one = Snapshot::of(&last);
    room.push_reserved(last);
    Seats { seats: room, one }
}
