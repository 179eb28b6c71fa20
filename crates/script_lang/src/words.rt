//! Numbers and words, each put behind what is there. After `NoMemory` a part of them may stand there.

ghost use Rattle.std.specs.Prelude.{◌≡◌, ℕ, List, ◌++◌, OnOk, OnErr};
ghost use Rattle.std.specs.Fmt.{decimal};
ghost use Rattle.script_lang.specs.Printing.{Keeps};
ghost use Rattle.script_lang.specs.Reading.{one_word, words};
ghost use Rattle.kr_order.specs.Text.{kind_sign};

use itoa::Buffer;
use kr_order::{EventId, Kind, NoMemory, Outcome, Pair};

// An item that is printed as one word. Contracts see the word.
pub(crate) trait Worded {
    ghost word: { Self → List ℕ };

    fn add(&self, out: &mut Vec<u8>) -> Result<(), NoMemory>
        ensures ok { OnOk result (out.new.items ≡ out.old.items ++ word self.now) }
        ensures err { OnErr result (Keeps out.old.items out.new.items) };
}

impl Worded for Pair {
    ghost use Rattle.kr_order.specs.Text.{pair_word};

    ghost word = { pair_word };

    fn add(&self, out: &mut Vec<u8>) -> Result<(), NoMemory> {
        add_number(out, self.first.0)?;
        add_sign(out, self.kind)?;
        add_number(out, self.second.0)
    }
}

impl Worded for (EventId, EventId) {
    ghost use Rattle.kr_order.specs.Text.{asked_word};

    ghost word = { asked_word };

    fn add(&self, out: &mut Vec<u8>) -> Result<(), NoMemory> {
        add_number(out, self.0.0)?;
        add_text(out, b",")?;
        add_number(out, self.1.0)
    }
}

impl Worded for Outcome {
    ghost use Rattle.kr_order.specs.Text.{outcome_word};

    ghost word = { outcome_word };

    fn add(&self, out: &mut Vec<u8>) -> Result<(), NoMemory> {
        match self {
            Outcome::Kept => add_text(out, b"kept"),
            Outcome::Reversed => add_text(out, b"reversed"),
            Outcome::Same => add_text(out, b"same"),
        }
    }
}

// The items' words, each with a space before it.
pub(crate) fn add_words<W: Worded>(out: &mut Vec<u8>, items: &[W]) -> Result<(), NoMemory>
    ensures ok { OnOk result (out.new.items ≡ out.old.items ++ words W.word items.now) }
    ensures err { OnErr result (Keeps out.old.items out.new.items) }
{
    for item in items {
        add_text(out, b" ")?;
        item.add(out)?;
    }
    Ok(())
}

// The sign between the events of a pair.
fn add_sign(out: &mut Vec<u8>, kind: Kind) -> Result<(), NoMemory>
    ensures ok { OnOk result (out.new.items ≡ out.old.items ++ kind_sign kind) }
    ensures err { OnErr result (Keeps out.old.items out.new.items) }
{
    match kind {
        Kind::Must => add_text(out, b"!"),
        Kind::Prefer => add_text(out, b"?"),
    }
}

// The number behind a space.
pub(crate) fn add_number_word(out: &mut Vec<u8>, n: u64) -> Result<(), NoMemory>
    ensures ok { OnOk result (out.new.items ≡ out.old.items ++ one_word n) }
    ensures err { OnErr result (Keeps out.old.items out.new.items) }
{
    add_text(out, b" ")?;
    add_number(out, n)
}

// The number's digits.
pub(crate) fn add_number(out: &mut Vec<u8>, n: u64) -> Result<(), NoMemory>
    ensures ok { OnOk result (out.new.items ≡ out.old.items ++ decimal n) }
    ensures err { OnErr result (Keeps out.old.items out.new.items) }
{
    let mut buffer = Buffer::new();
    add_text(out, buffer.format(n).as_bytes())
}

// The bytes.
pub(crate) fn add_text(out: &mut Vec<u8>, text: &[u8]) -> Result<(), NoMemory>
    ensures ok { OnOk result (out.new.items ≡ out.old.items ++ text.now) }
    ensures err { OnErr result (Keeps out.old.items out.new.items) }
{
    out.extend_from_slice(text)?;
    Ok(())
}
