//! The rule of the two copies, and its kinds of step. For the proofs alone.

ghost use Rattle.order_board.specs.Rule.{IsBoard, Shows};

use crate::copies::{Growth, OrderCopy};
use crate::history::Front;
use atomic_table::{Join, Split};
use crossbeam_utils::rule::{Outcome, Protocol};
use left_right::reader::{Reader, Reading};
use left_right::writer::Writer;

// What a seat knows: the beginning of the log that it saw last, or nothing yet. No value of it is made.
pub type Sight = Option<Front>;

pub struct BoardRule;

impl Protocol<OrderCopy, Sight> for BoardRule {
    ghost use Rattle.std.specs.Prelude.{None};

    ghost holds = { IsBoard };

    ghost first = { None };
}

// The writer publishes the other copy, or a reader enters the published one.
pub struct Show;

impl Outcome<OrderCopy, Sight> for Show {
    ghost then = { Shows };
}

// The writer tells what it saw, and goes on to know it.
pub struct Tell;

impl Split<Sight> for Tell {
    ghost left = { λ sight. sight };

    ghost right = { λ sight. sight };
}

// A reader that saw nothing yet learns what the writer told.
pub struct Learn;

impl Join<Sight> for Learn {
    ghost use Rattle.std.specs.Prelude.{None};

    ghost both = { λ sight told. told };

    ghost spent = { None };
}

pub type CopyReader = Reader<OrderCopy, Sight, BoardRule>;

pub type CopyReading = Reading<OrderCopy, Sight, BoardRule>;

pub type CopyWriter = Writer<OrderCopy, Growth, Sight, BoardRule>;
