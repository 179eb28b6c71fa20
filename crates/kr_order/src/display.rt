//! The texts of ids, commands, replies, entries and messages, as scripts and transcripts spell them.

ghost use Rattle.std.specs.Prelude.{Some};
ghost use Rattle.kr_order.specs.Text.{client_text, server_text, node_text, pair_word, pair_words, command_text};
ghost use Rattle.kr_order.specs.Text.{outcome_word, outcome_words, reply_text, done_text, answer_word};
ghost use Rattle.kr_order.specs.Text.{message_text, teller_text, part_text};

use crate::{
    Answer, ClientId, Command, DoneEntry, Kind, Message, Node, Outcome, Pair, Reply, ServerId,
    Teller, ToldPart,
};
use std::fmt;

impl fmt::Display for ClientId {
    ghost output = { λ client. Some (client_text client) };

    fn fmt<W: fmt::Write>(&self, f: &mut fmt::Formatter<W>) -> fmt::Result {
        let number = self.0;
        write!(f, "c{number}")
    }
}

impl fmt::Display for ServerId {
    ghost output = { λ server. Some (server_text server) };

    fn fmt<W: fmt::Write>(&self, f: &mut fmt::Formatter<W>) -> fmt::Result {
        let number = self.0;
        write!(f, "s{number}")
    }
}

impl fmt::Display for Node {
    ghost output = { λ node. Some (node_text node) };

    fn fmt<W: fmt::Write>(&self, f: &mut fmt::Formatter<W>) -> fmt::Result {
        match self {
            Node::Manager => write!(f, "m"),
            Node::Client(client) => write!(f, "{client}"),
            Node::Server(server) => write!(f, "{server}"),
        }
    }
}

impl fmt::Display for Pair {
    ghost output = { λ pair. Some (pair_word pair) };

    fn fmt<W: fmt::Write>(&self, f: &mut fmt::Formatter<W>) -> fmt::Result {
        let first = self.first.0;
        let second = self.second.0;
        match self.kind {
            Kind::Must => write!(f, "{first}!{second}"),
            Kind::Prefer => write!(f, "{first}?{second}"),
        }
    }
}

// The pairs of a batch, each with a space before it.
#[derive(Clone, Copy)]
struct PairWords<'a>(&'a [Pair]);

impl fmt::Display for PairWords<'_> {
    ghost output = { λ pairs. Some (pair_words pairs.0.now) };

    fn fmt<W: fmt::Write>(&self, f: &mut fmt::Formatter<W>) -> fmt::Result {
        for pair in self.0 {
            write!(f, " {pair}")?;
        }
        Ok(())
    }
}

impl fmt::Display for Command {
    ghost output = { λ command. Some (command_text command) };

    fn fmt<W: fmt::Write>(&self, f: &mut fmt::Formatter<W>) -> fmt::Result {
        match self {
            Command::Create => write!(f, "create"),
            Command::Assign(batch) => {
                let pairs = PairWords(batch.as_slice());
                write!(f, "assign{pairs}")
            }
            Command::Acquire(event) => {
                let number = event.0;
                write!(f, "acquire {number}")
            }
            Command::Release(event) => {
                let number = event.0;
                write!(f, "release {number}")
            }
        }
    }
}

impl fmt::Display for Outcome {
    ghost output = { λ outcome. Some (outcome_word outcome) };

    fn fmt<W: fmt::Write>(&self, f: &mut fmt::Formatter<W>) -> fmt::Result {
        match self {
            Outcome::Kept => write!(f, "kept"),
            Outcome::Reversed => write!(f, "reversed"),
            Outcome::Same => write!(f, "same"),
        }
    }
}

// The outcomes of a batch, each with a space before it.
#[derive(Clone, Copy)]
struct OutcomeWords<'a>(&'a [Outcome]);

impl fmt::Display for OutcomeWords<'_> {
    ghost output = { λ outcomes. Some (outcome_words outcomes.0.now) };

    fn fmt<W: fmt::Write>(&self, f: &mut fmt::Formatter<W>) -> fmt::Result {
        for outcome in self.0 {
            write!(f, " {outcome}")?;
        }
        Ok(())
    }
}

impl fmt::Display for Reply {
    ghost output = { λ reply. Some (reply_text reply) };

    fn fmt<W: fmt::Write>(&self, f: &mut fmt::Formatter<W>) -> fmt::Result {
        match self {
            Reply::Created(event) => {
                let number = event.0;
                write!(f, "created {number}")
            }
            Reply::Assigned(outcomes) => {
                let words = OutcomeWords(outcomes.as_slice());
                write!(f, "assigned{words}")
            }
            Reply::Count(count) => write!(f, "count {count}"),
            Reply::Unknown(index) => write!(f, "unknown {index}"),
            Reply::Contradicts(index) => write!(f, "contradicts {index}"),
        }
    }
}

impl fmt::Display for DoneEntry {
    ghost output = { λ done. Some (done_text done) };

    fn fmt<W: fmt::Write>(&self, f: &mut fmt::Formatter<W>) -> fmt::Result {
        let place = self.place;
        let client = self.entry.client;
        let seq = self.entry.seq;
        let command = &self.entry.command;
        let reply = &self.reply;
        write!(f, "{place} {client} {seq} {command} = {reply}")
    }
}

impl fmt::Display for Answer {
    ghost output = { λ answer. Some (answer_word answer) };

    fn fmt<W: fmt::Write>(&self, f: &mut fmt::Formatter<W>) -> fmt::Result {
        match self {
            Answer::Before => write!(f, "before"),
            Answer::After => write!(f, "after"),
            Answer::Same => write!(f, "same"),
            Answer::Concurrent => write!(f, "concurrent"),
            Answer::Unknown => write!(f, "unknown"),
            Answer::Unsure => write!(f, "unsure"),
        }
    }
}

impl fmt::Display for Message {
    ghost output = { λ message. Some (message_text message) };

    fn fmt<W: fmt::Write>(&self, f: &mut fmt::Formatter<W>) -> fmt::Result {
        match self {
            Message::Request { seq, .. } => write!(f, "request {seq}"),
            Message::Append { first, entries } => {
                let count = entries.len();
                write!(f, "append {first} {count}")
            }
            Message::Ack { done, len } => write!(f, "ack {done} {len}"),
            Message::NewView { view } => {
                let number = view.number;
                write!(f, "view {number}")
            }
            Message::Replied { seq, placed } => {
                let place = placed.place;
                write!(f, "reply {seq} {place}")
            }
            Message::Ask { q, part, pairs } => {
                let count = pairs.len();
                write!(f, "ask {q} {part} {count}")
            }
            Message::Answered { q, part, told } => {
                let entry = told.entry;
                write!(f, "answer {q} {part} {entry}")
            }
            Message::Refer { q, part, view } => {
                let number = view.number;
                write!(f, "refer {q} {part} {number}")
            }
            Message::Joined { joiner } => {
                let number = joiner.0;
                write!(f, "joined {number}")
            }
        }
    }
}

impl fmt::Display for Teller {
    ghost output = { λ teller. Some (teller_text teller) };

    fn fmt<W: fmt::Write>(&self, f: &mut fmt::Formatter<W>) -> fmt::Result {
        match self {
            Teller::Server(server) => write!(f, "{server}"),
            Teller::Cache => write!(f, "cache"),
        }
    }
}

impl fmt::Display for ToldPart {
    ghost output = { λ part. Some (part_text part) };

    fn fmt<W: fmt::Write>(&self, f: &mut fmt::Formatter<W>) -> fmt::Result {
        let q = self.q;
        let a = self.a.0;
        let b = self.b.0;
        let answer = self.answer;
        let entry = self.entry;
        let by = self.by;
        write!(f, "{q} {a},{b} {answer} at {entry} by {by}")
    }
}
