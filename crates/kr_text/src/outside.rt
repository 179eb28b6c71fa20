//! Sources and sinks of bytes, which may fail and then count a fault.

ghost use Rattle.std.specs.Prelude.{ℕ, ◌<◌, ◌≤◌, List, length, Option, IfOk};
ghost use Rattle.std.specs.Io.{ReadsAtMost, WritesAtMost};
ghost use Rattle.std.specs.Io.KnownBytes.{ReadConsumes, WriteAppends};
ghost use Rattle.kr_text.specs.Causes.{HasCause};

use thiserror::Error;

/// A read or a write failed. The source or sink has counted the fault.
#[derive(Clone, Copy, Debug, PartialEq, Eq, Error)]
#[error("a read or a write failed")]
pub struct Failed;

/// What bytes are read from.
pub trait Source {
    // The bytes that reads will give from here on, where they are known.
    ghost left: { Self → Option (List ℕ) };

    // How many reads failed so far, up to the end of `u64`.
    ghost faults: { Self → ℕ };

    /// Reads bytes into the front of `buf` and says how many. `Ok(0)` with room in `buf` is the end of the
    /// input. `Failed` took no byte.
    fn read(&mut self, buf: &mut [u8]) -> Result<usize, Failed>
        ensures bound { ReadsAtMost result buf.new }
        ensures bytes { ReadConsumes (left self.old) (left self.new) result buf.new }
        ensures cause { HasCause (faults self.old) (faults self.new) result };
}

/// What bytes are written to.
pub trait Sink {
    // The bytes that were written so far, where they are known.
    ghost held: { Self → Option (List ℕ) };

    // How many writes failed so far, up to the end of `u64`.
    ghost faults: { Self → ℕ };

    /// Takes bytes from the front of `piece` and says how many: at least one where `piece` has any. `Failed`
    /// took no byte.
    fn write(&mut self, piece: &[u8]) -> Result<usize, Failed>
        ensures bound { WritesAtMost result piece.now }
        ensures progress { 0 < length piece.now → IfOk result (λ count. 1 ≤ count) }
        ensures bytes { WriteAppends (held self.old) (held self.new) result piece.now }
        ensures cause { HasCause (faults self.old) (faults self.new) result };
}
