//! The rule of the table behind a turn, and its six kinds of step. For the proofs alone.

ghost use Rattle.replica_lock.specs.Rule.{IsTurn, standing_for};
ghost use Rattle.replica_lock.specs.Steps.{took, raised, gave, looked, remaining, split_off, joined, spent};

use crate::Held;
use crate::standing::{About, Standing};
use atomic_table::{Join, Play, Split, TableRule};
use std::marker::PhantomData;

// The word that counts the history, and the word that is 1 while the turn is taken.
pub const HISTORY: usize = 0;

pub const TURN: usize = 1;

// Where the value is while the turn is free.
pub const VALUE: usize = 0;

pub struct TurnRule;

impl<T: Held> TableRule<Option<T>, Standing<T::Name>, About<T>> for TurnRule {
    ghost holds = { λ about state. IsTurn T.count_of T.name_of about state };

    ghost first = { λ about. standing_for (T.name_of about.value.value) about.seats };
}

// A seat that does not hold the turn exchanges the turn word with 1. Where that was 0, it holds the turn.
pub struct Take;

impl<T: Held> Play<Option<T>, Standing<T::Name>> for Take {
    ghost then = { λ step me found after. took T.count_of T.name_of me found after };
}

// The holder raises the history word by one, where the value has an entry more.
pub struct Count;

impl<T: Held> Play<Option<T>, Standing<T::Name>> for Count {
    ghost then = { λ step me found after. raised me found after };
}

// The holder, whose value is back, exchanges the turn word with 0.
pub struct Give;

impl<T: Held> Play<Option<T>, Standing<T::Name>> for Give {
    ghost then = { λ step me found after. gave me found after };
}

// A seat loads the history word.
pub struct Look;

impl<T: Held> Play<Option<T>, Standing<T::Name>> for Look {
    ghost then = { λ step me found after. looked me found after };
}

// A seat that stands for one of the turn's seats is split off one that stands for two or more. None has given yet.
pub struct Halve;

impl<N> Split<Standing<N>> for Halve {
    ghost left = { λ v. remaining v };

    ghost right = { λ v. split_off v };
}

// A seat is joined into another. Neither holds the turn.
pub struct Merge<T> {
    of: PhantomData<T>,
}

impl<T: Held> Join<Standing<T::Name>> for Merge<T> {
    ghost both = { λ v w. joined v w };

    ghost spent = { spent T.nowhere };
}
