//! What the writer does with the two copies.

ghost use Rattle.std.specs.Prelude.{◌≡◌, ◌<◌, [], None, drop, IfOk, OnOk, OnErr};
ghost use Rattle.left_right.specs.Sides.{view as sight_of};
ghost use Rattle.order_board.specs.Copies.{IsPublished, IsNext};

use crate::copies::{Growth, OrderCopy};
use crate::history::Front;
use crate::rule::{CopyReader, CopyWriter, Learn, Show, Tell};
use kr_order::NoMemory;
use order_state::State;
use std::alloc::Global;
use std::sync::Wait;

// A copy of the empty history.
fn empty_copy(alloc: Global, seen: Front) -> OrderCopy
    requires { seen.log ≡ [] }
    ensures state { result.state.history ≡ [] }
    ensures seen { result.seen ≡ seen }
{
    OrderCopy {
        state: State::new(alloc),
        seen,
    }
}

// Two copies of the empty history, which nobody has seen.
fn lay(alloc: Global, seen: Front, readers: u32) -> Result<CopyWriter, NoMemory>
    requires seen { seen.log ≡ [] }
    requires readers { 0 < readers }
    ensures state { IfOk result (λ writer. writer.desk.shown.value.state.history ≡ []) }
    ensures seen { IfOk result (λ writer. writer.desk.shown.value.seen ≡ seen) }
    ensures pending { IfOk result (λ writer. drop writer.behind writer.log.items ≡ []) }
    ensures sight { IfOk result (λ writer. sight_of writer.desk.place ≡ None) }
{
    let first = empty_copy(alloc, seen.again());
    let second = empty_copy(alloc, seen);
    Ok(CopyWriter::new(alloc, first, second, readers as usize)?)
}

// Publishes the first copy, as which nothing is put into the other.
fn open<R: Wait>(rt: &R, writer: CopyWriter) -> (CopyWriter, Result<(), NoMemory>)
    requires pending { drop writer.behind writer.log.items ≡ [] }
    requires log { writer.desk.shown.value.seen.log ≡ writer.desk.shown.value.state.history }
    ensures published { OnOk result.1 (IsPublished result.0.desk.shown.value (sight_of result.0.desk.place)) }
    ensures list { OnOk result.1 (result.0.desk.shown.value.state.history ≡ writer.desk.shown.value.state.history) }
    ensures seen { OnOk result.1 (result.0.desk.shown.value.seen ≡ writer.desk.shown.value.seen) }
    ensures pending { OnOk result.1 (drop result.0.behind result.0.log.items ≡ []) }
{
    match writer.publish_as::<Show, R>(rt) {
        (writer, Ok(())) => (writer, Ok(())),
        (writer, Err(_)) => (writer, Err(NoMemory)),
    }
}

// Puts one entry more into the copies, and publishes it. After `NoMemory` the published copy is as before.
pub(crate) fn publish<R: Wait>(
    mut writer: CopyWriter,
    with: (&R, Growth),
) -> (CopyWriter, Result<(), NoMemory>)
    requires pending { drop writer.behind writer.log.items ≡ [] }
    requires published { IsPublished writer.desk.shown.value (sight_of writer.desk.place) }
    requires next { IsNext writer.desk.shown.value with.1 }
    ensures published { IsPublished result.0.desk.shown.value (sight_of result.0.desk.place) }
    ensures list { OnOk result.1 (result.0.desk.shown.value.state.history ≡ with.entry.1.seen.log) }
    ensures copies { result.0.desk.shown.value.seen.book ≡ writer.desk.shown.value.seen.book }
    ensures pending { OnOk result.1 (drop result.0.behind result.0.log.items ≡ []) }
    ensures err { OnErr result.1 (result.0.desk.shown.value ≡ writer.desk.shown.value) }
{
    let (rt, growth) = with;
    let Ok(()) = writer.append(growth) else {
        return (writer, Err(NoMemory));
    };
    match writer.publish_as::<Show, R>(rt) {
        (writer, Ok(())) => (writer, Ok(())),
        (writer, Err(_)) => (writer, Err(NoMemory)),
    }
}

// Two copies of the empty history, one of them published.
pub(crate) fn make<R: Wait>(
    rt: &R,
    alloc: Global,
    seen: Front,
    readers: u32,
) -> Result<CopyWriter, NoMemory>
    requires seen { seen.log ≡ [] }
    requires readers { 0 < readers }
    ensures published { IfOk result (λ writer. IsPublished writer.desk.shown.value (sight_of writer.desk.place)) }
    ensures list { IfOk result (λ writer. writer.desk.shown.value.state.history ≡ []) }
    ensures copies { IfOk result (λ writer. writer.desk.shown.value.seen.book ≡ seen.book) }
    ensures pending { IfOk result (λ writer. drop writer.behind writer.log.items ≡ []) }
{
    let writer = lay(alloc, seen, readers)?;
    match open(rt, writer) {
        (writer, Ok(())) => Ok(writer),
        (writer, Err(NoMemory)) => {
            writer.take(rt);
            Err(NoMemory)
        }
    }
}

// One reader more, which is told what the writer saw.
pub(crate) fn reader_of(writer: &mut CopyWriter) -> Result<CopyReader, NoMemory>
    ensures sight { IfOk result (λ reader. sight_of reader.place ≡ sight_of writer.old.desk.place) }
    ensures shown { writer.new.desk.shown ≡ writer.old.desk.shown }
    ensures pending { drop writer.new.behind writer.new.log.items ≡ drop writer.old.behind writer.old.log.items }
    ensures same { sight_of writer.new.desk.place ≡ sight_of writer.old.desk.place }
{
    let mut reader = writer.factory().reader()?;
    reader.learn::<Learn>(writer.tell::<Tell>());
    Ok(reader)
}
