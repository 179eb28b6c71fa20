//! The summary of a load.

ghost use Rattle.std.specs.Prelude.{◌≡◌, ◌++◌, OnOk, IfOk};
ghost use Rattle.load_gen.specs.Summary.{counted_line, summary_lines};

use kr_order::NoMemory;
use kr_text::put_number;
use std::alloc::Global;

/// What is counted of a load and of its run.
#[derive(Clone, Copy, Debug, PartialEq, Eq)]
pub struct Summary {
    /// Commands and queries.
    pub calls: u64,
    /// Entries of the history.
    pub history: u64,
    /// Packets that were sent.
    pub packets: u64,
    /// Events that the history has made.
    pub born: u64,
    /// Events that are held after the whole history.
    pub held: u64,
    /// Pairs that are held then.
    pub pairs: u64,
    /// Pairs of queries that a client was told to be in their order.
    pub before: u64,
}

// Puts a line of a word and a number behind what is there.
fn put_counted(out: &mut Vec<u8>, word: &[u8], n: u64) -> Result<(), NoMemory>
    ensures { OnOk result (out.new.items ≡ out.old.items ++ counted_line word.now n) }
{
    out.extend_from_slice(word)?;
    put_number(out, n)?;
    out.push(b'\n')?;
    Ok(())
}

impl Summary {
    /// Its lines: each count behind its word, and `end`.
    pub fn text(&self, alloc: Global) -> Result<Vec<u8>, NoMemory>
        ensures { IfOk result (λ text. text.items ≡ summary_lines self.now) }
    {
        let mut text = Vec::new(alloc);
        put_counted(&mut text, b"calls ", self.calls)?;
        put_counted(&mut text, b"history ", self.history)?;
        put_counted(&mut text, b"packets ", self.packets)?;
        put_counted(&mut text, b"born ", self.born)?;
        put_counted(&mut text, b"held ", self.held)?;
        put_counted(&mut text, b"pairs ", self.pairs)?;
        put_counted(&mut text, b"before ", self.before)?;
        text.extend_from_slice(b"end\n")?;
        Ok(text)
    }
}
