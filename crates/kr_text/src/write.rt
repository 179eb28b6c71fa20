//! Writing a whole text.

ghost use Rattle.std.specs.Prelude.{◌≡◌, OnOk};
ghost use Rattle.kr_text.specs.Writes.{Writes};

use crate::{Failed, Sink};
use thiserror::Error;

/// Why a text was not written whole.
#[derive(Clone, Copy, Debug, PartialEq, Eq, Error)]
pub enum WriteStop {
    /// A write failed.
    #[error("the output could not be written")]
    Fault,
}

/// Writes the text, in as many pieces as the sink takes it in. It takes no memory.
///
/// `Fault` comes where a write failed. The sink has then taken a front of the text and not all of it.
pub fn write_all<K: Sink>(sink: &mut K, text: &[u8]) -> Result<(), WriteStop>
    ensures calm { OnOk result (K.faults sink.new ≡ K.faults sink.old) }
    ensures writes { Writes text.now result (K.held sink.old) (K.held sink.new)
        (K.faults sink.old) (K.faults sink.new) }
{
    let mut done = 0;
    while done < text.len() {
        match sink.write(text.split_at(done).1) {
            Ok(count) => done += count,
            Err(Failed) => return Err(WriteStop::Fault),
        }
    }
    Ok(())
}
