//! The texts of a transcript that scripts share, put behind what is there.

ghost use Rattle.std.specs.Prelude.{◌≡◌, ◌≢◌, ◌++◌, codes, OnOk, OnErr};
ghost use Rattle.std.specs.Fmt.{decimal};
ghost use Rattle.kr_order.specs.Text.{answer_word, client_text, command_text, command_word, command_words, done_text, reply_text};
ghost use Rattle.script_lang.specs.Line.{line};
ghost use Rattle.script_lang.specs.Printing.{Keeps};

use crate::words::{add_number, add_number_word, add_text, add_words};
use kr_order::{Answer, ClientId, Command, DoneEntry, NoMemory, Reply};

/// Puts the entry's line `PLACE cC SEQ COMMAND = REPLY` with its LF behind what `out` holds. `NoMemory` comes
/// where there is no memory for it, and leaves `out` as it was.
pub fn put_done(out: &mut Vec<u8>, done: &DoneEntry) -> Result<(), NoMemory>
    ensures ok { OnOk result (out.new.items ≡ out.old.items ++ line (done_text done.now)) }
    ensures err { OnErr result (out.new.items ≡ out.old.items) }
{
    let before = out.len();
    if add_done(out, done).is_err() {
        out.truncate(before);
        return Err(NoMemory);
    }
    Ok(())
}

/// Puts the reply's text, such as `created 3` or `assigned kept same`, behind what `out` holds. `NoMemory` comes
/// where there is no memory for it, and leaves `out` as it was.
pub fn put_reply_text(out: &mut Vec<u8>, reply: &Reply) -> Result<(), NoMemory>
    ensures ok { OnOk result (out.new.items ≡ out.old.items ++ reply_text reply.now) }
    ensures err { OnErr result (out.new.items ≡ out.old.items) }
{
    let before = out.len();
    if add_reply(out, reply).is_err() {
        out.truncate(before);
        return Err(NoMemory);
    }
    Ok(())
}

/// Puts the answer's word, such as `before`, behind what `out` holds. `NoMemory` comes where there is no memory
/// for it, and leaves `out` as it was. No client is told `Unsure`.
pub fn put_answer_text(out: &mut Vec<u8>, answer: &Answer) -> Result<(), NoMemory>
    requires { answer.now ≢ Answer.Unsure }
    ensures ok { OnOk result (out.new.items ≡ out.old.items ++ answer_word answer.now) }
    ensures err { OnErr result (out.new.items ≡ out.old.items) }
{
    out.extend_from_slice(word_of(answer))?;
    Ok(())
}

// The answer's word.
fn word_of(answer: &Answer) -> &'static [u8]
    ensures { result.now ≡ answer_word answer.now }
{
    match answer {
        Answer::Before => b"before",
        Answer::After => b"after",
        Answer::Same => b"same",
        Answer::Concurrent => b"concurrent",
        Answer::Unknown => b"unknown",
        Answer::Unsure => b"unsure",
    }
}

// The entry's line, of which a part may stand there after `NoMemory`.
fn add_done(out: &mut Vec<u8>, done: &DoneEntry) -> Result<(), NoMemory>
    ensures ok { OnOk result (out.new.items ≡ out.old.items ++ line (done_text done.now)) }
    ensures err { OnErr result (Keeps out.old.items out.new.items) }
{
    add_place(out, done.place, done.entry.client, done.entry.seq)?;
    add_command(out, &done.entry.command)?;
    add_text(out, b" = ")?;
    add_reply(out, &done.reply)?;
    add_text(out, b"\n")
}

// What stands before the command in the entry's line.
fn add_place(out: &mut Vec<u8>, place: u64, client: ClientId, seq: u64) -> Result<(), NoMemory>
    ensures ok { OnOk result (out.new.items ≡
        out.old.items ++ (decimal place ++ codes " " ++ client_text client ++ codes " " ++ decimal seq ++ codes " ")) }
    ensures err { OnErr result (Keeps out.old.items out.new.items) }
{
    add_number(out, place)?;
    add_counted(out, b" c", u64::from(client.0))?;
    add_number_word(out, seq)?;
    add_text(out, b" ")
}

// The command's text.
fn add_command(out: &mut Vec<u8>, command: &Command) -> Result<(), NoMemory>
    ensures ok { OnOk result (out.new.items ≡ out.old.items ++ command_text command.now) }
    ensures err { OnErr result (Keeps out.old.items out.new.items) }
{
    add_command_word(out, command)?;
    add_command_words(out, command)
}

// The first word of the command's line.
pub(crate) fn add_command_word(out: &mut Vec<u8>, command: &Command) -> Result<(), NoMemory>
    ensures ok { OnOk result (out.new.items ≡ out.old.items ++ command_word command.now) }
    ensures err { OnErr result (Keeps out.old.items out.new.items) }
{
    match command {
        Command::Create => add_text(out, b"create"),
        Command::Assign(_) => add_text(out, b"assign"),
        Command::Acquire(_) => add_text(out, b"acquire"),
        Command::Release(_) => add_text(out, b"release"),
    }
}

// The words that follow it, without the client.
pub(crate) fn add_command_words(out: &mut Vec<u8>, command: &Command) -> Result<(), NoMemory>
    ensures ok { OnOk result (out.new.items ≡ out.old.items ++ command_words command.now) }
    ensures err { OnErr result (Keeps out.old.items out.new.items) }
{
    match command {
        Command::Create => Ok(()),
        Command::Assign(batch) => add_words(out, batch.as_slice()),
        Command::Acquire(event) | Command::Release(event) => add_number_word(out, event.0),
    }
}

// The reply's text.
fn add_reply(out: &mut Vec<u8>, reply: &Reply) -> Result<(), NoMemory>
    ensures ok { OnOk result (out.new.items ≡ out.old.items ++ reply_text reply.now) }
    ensures err { OnErr result (Keeps out.old.items out.new.items) }
{
    match reply {
        Reply::Created(event) => add_counted(out, b"created ", event.0),
        Reply::Assigned(outcomes) => {
            add_text(out, b"assigned")?;
            add_words(out, outcomes.as_slice())
        }
        Reply::Count(count) => add_counted(out, b"count ", *count),
        Reply::Unknown(index) => add_counted(out, b"unknown ", u64::from(*index)),
        Reply::Contradicts(index) => add_counted(out, b"contradicts ", u64::from(*index)),
    }
}

// A text and a number.
pub(crate) fn add_counted(out: &mut Vec<u8>, text: &[u8], n: u64) -> Result<(), NoMemory>
    ensures ok { OnOk result (out.new.items ≡ out.old.items ++ (text.now ++ decimal n)) }
    ensures err { OnErr result (Keeps out.old.items out.new.items) }
{
    add_text(out, text)?;
    add_number(out, n)
}
