//! What a client does with the packets that servers send to it.

ghost use Rattle.std.specs.Prelude.{◌≡◌, None, Some, true, false, IfOk, OnErr};
ghost use Rattle.kr_protocol.specs.Client.{may_answer_all, after_reply, answered, answers_from, turns_to, after_refer};
ghost use Rattle.client_session.specs.Calls.{Takes, Hears, heeds_reply, heeds_answers, heeds_refer};

use super::{Client, Heard, last_of, remaining};
use crate::answers::{fits, parts_of, remember_all, unsure_of};
use kr_order::{
    Asked, Copied, Message, NoMemory, Node, Packet, Packets, Parts, Placed, Teller, Told,
    ToldReply, View,
};

impl Client {
    /// Takes a packet that is addressed to the client. The reply of its open command is told and closes it. Of the
    /// answers to the open part of its query what is sure is told; what a server is unsure of is asked of the last
    /// server of the known view, and where nothing is left the query is closed. A newer view, from a server that does
    /// not answer that part, is known from then on, and the last server of it is asked. Any other packet changes
    /// nothing, also one whose answers cannot be those of the query, and is no cause of `NoMemory`.
    pub fn take(&mut self, packet: &Packet) -> Result<Heard, NoMemory>
        ensures { Takes self.old packet.now result self.new }
    {
        if self.failed {
            return Err(NoMemory);
        }
        match &packet.message {
            Message::Replied { seq, placed } => self.hear_reply(*seq, placed),
            Message::Answered { q, part, told } => self.hear_answers(packet.from, *q, *part, told),
            Message::Refer { q, part, view } => self.hear_refer(*q, *part, view),
            _ => Ok(Heard::nothing(self.alloc)),
        }
    }

    // A reply came in.
    fn hear_reply(&mut self, seq: u64, placed: &Placed) -> Result<Heard, NoMemory>
        requires { self.old.failed ≡ false }
        ensures hears { Hears (after_reply self.old.client self.old.client.call seq placed.now) result self.new }
        ensures err { OnErr result (heeds_reply self.old.client seq ≡ true) }
    {
        if self.call.is_none() || seq != self.seq {
            return Ok(Heard::nothing(self.alloc));
        }
        self.failed = true;
        let placed = placed.copy(self.alloc)?;
        self.call = None;
        self.seen = self.seen.max(placed.place);
        self.failed = false;
        Ok(Heard {
            told: Some(ToldReply { seq, placed }),
            parts: Parts::new(self.alloc),
            packets: Packets::new(self.alloc),
        })
    }

    // Answers to the remaining pairs of its query came in, each of which can be given.
    #[tactic(auto, using(crate::proofs::AnswerLemmas::as_many))]
    fn be_answered(&mut self, pairs: Asked, by: Teller, told: &Told) -> Result<Heard, NoMemory>
        requires whole { self.old.failed ≡ false }
        requires fits { may_answer_all self.old.client.part pairs told.now.answers ≡ true }
        ensures { Hears (answered self.old.client pairs by told.now) result self.new }
    {
        let answers = told.answers.as_slice();
        self.failed = true;
        let parts = parts_of(
            self.alloc,
            self.q,
            told.entry,
            by,
            pairs.as_slice(),
            answers,
        )?;
        let left = unsure_of(self.alloc, pairs.as_slice(), answers)?;
        remember_all(&mut self.cache, told.entry, pairs.as_slice(), answers)?;
        self.part = 2;
        self.asking = remaining(left);
        self.seen = self.seen.max(told.entry);
        let packets = self.asked_again(last_of(&self.known))?;
        self.failed = false;
        Ok(Heard {
            told: None,
            parts,
            packets,
        })
    }

    // Answers came in.
    fn hear_answers(&mut self, from: Node, q: u64, part: u8, told: &Told) -> Result<Heard, NoMemory>
        requires { self.old.failed ≡ false }
        ensures hears { Hears (answers_from self.old.client from q part told.now) result self.new }
        ensures err { OnErr result (heeds_answers self.old.client from q part told.now ≡ true) }
    {
        let Node::Server(server) = from else {
            return Ok(Heard::nothing(self.alloc));
        };
        let Some(pairs) = self.asking.take() else {
            return Ok(Heard::nothing(self.alloc));
        };
        let current = q == self.q && part == self.part;
        if !fits(current, part, pairs.as_slice(), told.answers.as_slice()) {
            self.asking = Some(pairs);
            return Ok(Heard::nothing(self.alloc));
        }
        self.be_answered(pairs, Teller::Server(server), told)
    }

    // A server has told of its view.
    fn hear_refer(&mut self, q: u64, part: u8, view: &View) -> Result<Heard, NoMemory>
        requires { self.old.failed ≡ false }
        ensures hears { Hears (after_refer self.old.client self.old.client.asking q part view.now) result self.new }
        ensures err { OnErr result (heeds_refer self.old.client q part view.now ≡ true) }
    {
        let current = self.asking.is_some() && q == self.q && part == self.part;
        if !current || view.number <= self.known.number {
            return Ok(Heard::nothing(self.alloc));
        }
        self.failed = true;
        self.known = view.copy(self.alloc)?;
        let packets = self.asked_again(last_of(&self.known))?;
        self.failed = false;
        Ok(Heard {
            told: None,
            parts: Parts::new(self.alloc),
            packets,
        })
    }
}
