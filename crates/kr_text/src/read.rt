//! Reading a whole input.

ghost use Rattle.std.specs.Prelude.{◌^◌, ◌<◌};
ghost use Rattle.kr_text.specs.Reads.{Reads, CountsRightly};

use crate::{Failed, Source};
use std::alloc::{AllocError, Global};
use thiserror::Error;

/// Why an input was not read whole.
#[derive(Clone, Copy, Debug, PartialEq, Eq, Error)]
pub enum ReadStop {
    /// A read failed.
    #[error("the input could not be read")]
    Fault,
    /// The source gave a byte past the limit.
    #[error("the input is too long")]
    TooLong,
    /// There was no memory to keep the bytes.
    #[error("out of memory")]
    NoMemory,
}

impl From<AllocError> for ReadStop {
    ghost use Rattle.std.specs.Prelude.{◌≡◌};
    ghost use Rattle.kr_text.specs.declared.read.ReadStop.TheVariants.{NoMemory};

    ghost from_gives = { λ _ stop. stop ≡ NoMemory };

    fn from(_: AllocError) -> Self {
        ReadStop::NoMemory
    }
}

// How many bytes are asked for at once, at most.
const CHUNK: usize = 4096;

/// Reads from the source to its end and answers all bytes that it gave, at most `limit`, a number of bytes
/// below 2^63.
///
/// It asks for at most 4096 bytes at once and for at most `limit + 1` in all, and takes time in proportion to
/// what it was given. `TooLong` comes exactly where the source gave a byte past the limit, `Fault` where a read failed,
/// and `NoMemory` where the bytes, at most `limit`, could not be kept. Bytes that were read before an error
/// are lost.
pub fn read_all<S: Source>(alloc: Global, source: &mut S, limit: usize) -> Result<Vec<u8>, ReadStop>
    requires { limit < 2 ^ 63 }
    ensures reads { Reads limit result (S.left source.old) (S.left source.new) }
    ensures faults { CountsRightly result (S.faults source.old) (S.faults source.new) }
{
    let mut chunk = [0; CHUNK];
    let mut bytes = Vec::new(alloc);
    loop {
        let room = limit - bytes.len();
        let most = CHUNK.min(room + 1);
        let count = match source.read(&mut chunk[..most]) {
            Ok(count) => count,
            Err(Failed) => return Err(ReadStop::Fault),
        };
        if count == 0 {
            return Ok(bytes);
        }
        if count > room {
            return Err(ReadStop::TooLong);
        }
        bytes.extend_from_slice(&chunk[..count])?;
    }
}
