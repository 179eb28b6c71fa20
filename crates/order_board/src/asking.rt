//! What is told to a reader's pairs.

ghost use Rattle.std.specs.Prelude.{◌≡◌, ◌<◌, ◌≤◌, IfOk};
ghost use Rattle.kr_order.specs.Answer.{answers_after};
ghost use Rattle.order_board.specs.Views.{told_of};

use kr_order::{Answers, Asked, EventId, NoMemory, Steps, Told};
use order_state::State;
use reach::{Asks, Scratch};
use std::alloc::Global;
use std::marker::Brand;
use std::sync::ledger::{Blank, Ledger};

// The answers to these pairs, in their order.
fn answers<L: Ledger>(
    alloc: Global,
    state: &State,
    pairs: &[(EventId, EventId)],
    scratch: &mut Scratch,
    blank: Blank,
) -> Result<Answers, NoMemory>
    requires fits { state.now.cells ≤ scratch.old }
    requires name { blank.name ≡ L.name }
    requires parts { blank.parts ≡ L.parts }
    requires some { 0 < blank.parts }
    ensures { IfOk result (λ answers. answers ≡ answers_after state.now.history pairs.now) }
{
    let mut steps = Steps::<L>::new(blank);
    let mut answers = Answers::new(alloc);
    for pair in pairs {
        answers.push(state.answer(scratch, pair.0, pair.1, &mut steps))?;
    }
    Ok(answers)
}

// What is told to these pairs after the state's history. The scratch is for one search after another.
pub(crate) fn told(
    alloc: Global,
    state: &State,
    scratch: &mut Scratch,
    pairs: &Asked,
) -> Result<Told, NoMemory>
    ensures { IfOk result (λ told. told ≡ told_of state.now.history pairs.now) }
{
    state.fit(scratch)?;
    let answers = answers::<Brand>(alloc, state, pairs.as_slice(), scratch, Blank::new(1))?;
    Ok(Told {
        entry: state.count(),
        answers,
    })
}
