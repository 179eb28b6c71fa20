//! How a run of the program ends.

ghost use Rattle.std.specs.Prelude.{◌≡◌};
ghost use Rattle.kronos_runs.specs.Exits.{status_of};

use std::alloc::{AllocError, AllocFailed};

/// How a run of the program ends.
#[derive(Clone, Copy, Debug, PartialEq, Eq)]
pub enum Exit {
    /// The input was read to its end and the whole text was written.
    Done,
    /// The words are no form, and the usage line was written.
    Usage,
    /// The line of this number, from 1, is the first that is not in the grammar, and a line that says so was
    /// written.
    BadLine(u64),
    /// The input has more bytes than are read.
    TooLong,
    /// A read failed.
    ReadFault,
    /// A write failed.
    WriteFault,
    /// There was no memory.
    NoMemory,
    /// The input is a log, the line of this number, from 1, is the first whose pairs close a cycle with those of the lines
    /// above it, and a line that says so was written.
    Cyclic { line: u64 },
}

impl Exit {
    /// The status that the program ends with.
    pub fn status(&self) -> u8
        ensures { result ≡ status_of self.now }
    {
        match self {
            Exit::Done => 0,
            Exit::Usage => 2,
            Exit::BadLine(_) => 3,
            Exit::TooLong => 4,
            Exit::ReadFault => 5,
            Exit::WriteFault => 6,
            Exit::NoMemory => 7,
            Exit::Cyclic { .. } => 10,
        }
    }
}

impl From<AllocError> for Exit {
    ghost use Rattle.std.specs.Prelude.{◌≡◌};
    ghost use Rattle.kronos_runs.specs.declared.exit.Exit.TheVariants.{NoMemory};

    ghost from_gives = { λ _ exit. exit ≡ NoMemory };

    fn from(_: AllocError) -> Self {
        Exit::NoMemory
    }
}

impl<T: Drop> From<AllocFailed<T>> for Exit {
    ghost use Rattle.std.specs.Prelude.{◌≡◌};
    ghost use Rattle.kronos_runs.specs.declared.exit.Exit.TheVariants.{NoMemory};

    ghost from_gives = { λ _ exit. exit ≡ NoMemory };

    fn from(_: AllocFailed<T>) -> Self {
        Exit::NoMemory
    }
}
