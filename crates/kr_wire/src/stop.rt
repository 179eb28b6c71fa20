//! Why bytes are not read.

ghost use Rattle.std.specs.Prelude.{◌≡◌};
ghost use Rattle.kr_wire.specs.declared.stop.FieldError.TheVariants.{NoMemory as OutOfMemory};

use kr_order::NoMemory;
use std::alloc::{AllocError, AllocFailed};
use thiserror::Error;

/// Why bytes are not decoded.
#[derive(Clone, Copy, Debug, PartialEq, Eq, Error)]
pub enum WireError {
    /// The bytes are no spelling. `at` is the place, from 0, of the first byte of the first field that is cut short
    /// or holds a value that is not allowed, or of the first byte behind the last field.
    #[error("the bytes are no spelling, from {at} on")]
    Refused { at: usize },
    #[error("out of memory")]
    NoMemory,
}

/// Why a field is not read.
#[derive(Clone, Copy, Debug, PartialEq, Eq)]
pub enum FieldError {
    /// So many bytes are left from the first field on that is cut short or holds a value that is not allowed.
    Broken { left: usize },
    NoMemory,
}

impl From<NoMemory> for FieldError {
    ghost from_gives = { λ _ stop. stop ≡ OutOfMemory };

    fn from(_: NoMemory) -> Self {
        FieldError::NoMemory
    }
}

impl From<AllocError> for FieldError {
    ghost from_gives = { λ _ stop. stop ≡ OutOfMemory };

    fn from(_: AllocError) -> Self {
        FieldError::NoMemory
    }
}

impl<T: Drop> From<AllocFailed<T>> for FieldError {
    ghost from_gives = { λ _ stop. stop ≡ OutOfMemory };

    fn from(_: AllocFailed<T>) -> Self {
        FieldError::NoMemory
    }
}
