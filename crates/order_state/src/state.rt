//! The state: the entries of the history, what is held of the order that they come to, and each client's last entry.

ghost use Rattle.std.specs.Prelude.{◌≡◌, ◌+◌, ◌^◌, ◌<◌, ◌≤◌, [], ◌∷◌, ◌++◌, length, IfOk, OnOk};
ghost use Rattle.std.specs.Option.{option_copied, option_map};
ghost use Rattle.kr_order.specs.History.{births_of, born_in};
ghost use Rattle.kr_order.specs.Agreed.{agreed_of};
ghost use Rattle.kr_order.specs.Held.{held_events, held_pairs};
ghost use Rattle.kr_order.specs.Reply.{reply_to};
ghost use Rattle.kr_order.specs.Done.{done_of, last_of, seq_of};
ghost use Rattle.order_state.specs.Kept.{kept_of, IsReady};
ghost use Rattle.order_state.specs.Decision.{adds_of, IsDecision};

use crate::kept::Decision;
use crate::order::Order;
use crate::{Kept, Prepared};
use batch_assign::Plan;
use kr_order::{Answer, ClientId, Command, Copied, Entry, EventId, NoMemory, Reply, Steps};
use reach::{Asks, Scratch};
use std::alloc::Global;
use std::collections::HashMap;
use std::marker::{Brand, Model};
use std::sync::ledger::{Blank, Ledger};

/// The replicated state of the order.
#[derive(Debug, Drop)]
pub struct State {
    entries: Vec<Entry>,
    order: Order,
    // a client's last entry, by the client's number
    last: HashMap<u32, Kept>,
    // for the searches of the batches that are prepared
    scratch: Scratch,
}

impl Model for State {
    ghost use Rattle.std.specs.Prelude.{◌-◌, min, vec_len};
    ghost use Rattle.std.specs.Vec.{vec_capacity};
    ghost use Rattle.std.specs.HashMap.{spare};
    ghost use Rattle.order_state.specs.Standing.{Standing};
    ghost use Rattle.order_state.specs.Kept.{IsKeptOf};

    ghost Value = { Standing };

    ghost view = { λ s. record {
      history = s.entries.items;
      cells = s.order.cells;
      room = min (vec_capacity s.entries - vec_len s.entries) (spare s.last);
      event_room = s.order.event_room;
      pair_room = s.order.pair_room;
    } };

    ghost invariant = { λ s. IsKeptOf s.entries.items s.order s.last };
}

// How many events the command makes.
fn births(command: &Command) -> usize
    ensures { result ≡ births_of command.now }
{
    match command {
        Command::Create => 1,
        Command::Assign(_) | Command::Acquire(_) | Command::Release(_) => 0,
    }
}

// How many pairs the plan adds, if there is one.
fn added(plan: &Option<Plan>) -> usize
    ensures { result ≡ length (adds_of plan.now) }
{
    match plan {
        Some(plan) => plan.adds.len(),
        None => 0,
    }
}

impl State {
    /// The state of the empty history. It takes no memory.
    pub fn new(alloc: Global) -> Self
        ensures { result.history ≡ [] }
    {
        State {
            entries: Vec::new(alloc),
            order: Order::new(alloc),
            last: HashMap::new(alloc),
            scratch: Scratch::new(alloc),
        }
    }

    // Makes room for one more entry, and for so many events and pairs.
    fn reserve(&mut self, events: usize, pairs: usize) -> Result<(), NoMemory>
        ensures history { self.new.history ≡ self.old.history }
        ensures room { OnOk result (1 ≤ self.new.room) }
        ensures event_room { OnOk result (events ≤ self.new.event_room) }
        ensures pair_room { OnOk result (pairs ≤ self.new.pair_room) }
        ensures keeps_room { self.old.room ≤ self.new.room }
        ensures keeps_event_room { self.old.event_room ≤ self.new.event_room }
        ensures keeps_pair_room { self.old.pair_room ≤ self.new.pair_room }
    {
        self.entries.reserve(1)?;
        self.last.reserve(1)?;
        self.order.reserve(events, pairs)?;
        Ok(())
    }

    // What a command at the next place is to do.
    fn decide<L: Ledger>(&mut self, command: &Command, blank: Blank) -> Result<Decision, NoMemory>
        requires name { blank.name ≡ L.name }
        requires parts { blank.parts ≡ L.parts }
        requires some { 0 < blank.parts }
        requires few { length self.old.history < 2 ^ 58 }
        ensures state { self.new ≡ self.old }
        ensures decision { IfOk result (IsDecision (agreed_of self.old.history) command.now) }
    {
        let mut steps = Steps::<L>::new(blank);
        match command {
            Command::Create => Ok(Decision {
                reply: Reply::Created(EventId(self.next_event())),
                plan: None,
            }),
            Command::Assign(batch) => {
                let alloc = *self.entries.allocator();
                self.order.fit(&mut self.scratch)?;
                self.order
                    .decide(alloc, batch, &mut self.scratch, &mut steps)
            }
            Command::Acquire(event) => Ok(Decision {
                reply: self.order.acquired(*event),
                plan: None,
            }),
            Command::Release(event) => Ok(Decision {
                reply: self.order.released(*event),
                plan: None,
            }),
        }
    }

    // The number of the event that the next create makes.
    fn next_event(&self) -> u64
        ensures { result ≡ born_in self.now.history + 1 }
    {
        self.order.born() + 1
    }

    /// Makes room for one more entry, and all that applying this one takes. After `NoMemory`, which comes
    /// where there is no memory for these, the history is as before.
    pub fn prepare(&mut self, entry: &Entry) -> Result<Prepared, NoMemory>
        requires { length self.old.history < 2 ^ 58 }
        ensures history { self.new.history ≡ self.old.history }
        ensures entry { IfOk result (λ p. p.entry ≡ entry.now) }
        ensures ready { IfOk result (IsReady self.new) }
        ensures room { self.old.room ≤ self.new.room }
        ensures event_room { self.old.event_room ≤ self.new.event_room }
        ensures pair_room { self.old.pair_room ≤ self.new.pair_room }
    {
        let alloc = *self.entries.allocator();
        let Decision { reply, plan } = self.decide::<Brand>(&entry.command, Blank::new(1))?;
        self.reserve(births(&entry.command), added(&plan))?;
        let kept = Kept {
            seq: entry.seq,
            place: self.count() + 1,
            reply: reply.copy(alloc)?,
        };
        Ok(Prepared {
            entry: entry.copy(alloc)?,
            kept,
            reply,
            plan,
        })
    }

    /// Puts a prepared entry at the end of the history, and gives its reply. It takes no memory.
    pub fn apply(&mut self, prepared: Prepared) -> Reply
        requires ready { IsReady self.old prepared }
        requires count { length self.old.history < 2 ^ 58 }
        ensures history { self.new.history ≡ self.old.history ++ prepared.entry ∷ [] }
        ensures reply { result ≡ reply_to self.old.history prepared.entry.command }
        ensures room { self.old.room ≤ self.new.room + 1 }
        ensures event_room { self.old.event_room ≤ self.new.event_room + births_of prepared.entry.command }
        ensures pair_room { self.old.pair_room ≤ self.new.pair_room + length (adds_of prepared.plan) }
    {
        let Prepared {
            entry,
            kept,
            reply,
            plan,
        } = prepared;
        let client = entry.client.0;
        self.order.apply(&entry.command, plan);
        self.entries.push_reserved(entry);
        let inserted: Result<_, _> = self.last.insert(client, kept);
        let _ = inserted.unwrap();
        reply
    }

    /// The client's last entry; `None` where the history has none of the client.
    pub fn last(&self, client: ClientId) -> Option<&Kept>
        ensures { option_copied result ≡ option_map kept_of (last_of client (done_of self.now.history)) }
    {
        self.last.get(&client.0)
    }

    /// The sequence number of the client's last entry, from 1; 0 where the history has none of the client.
    pub fn highest(&self, client: ClientId) -> u64
        ensures { result ≡ seq_of (last_of client (done_of self.now.history)) }
    {
        match self.last(client) {
            Some(kept) => kept.seq,
            None => 0,
        }
    }

    /// How many entries the history has.
    pub fn count(&self) -> u64
        ensures { result ≡ length self.now.history }
    {
        self.entries.len() as u64
    }

    /// How many events the history has made.
    pub fn born(&self) -> u64
        ensures { result ≡ born_in self.now.history }
    {
        self.order.born()
    }

    /// How many events are held: those that are live, and those that a live event is before.
    pub fn held(&self) -> u64
        ensures { result ≡ length (held_events self.now.history) }
    {
        self.order.held()
    }

    /// How many pairs are held: those whose first event is.
    pub fn pairs_held(&self) -> u64
        ensures { result ≡ length (held_pairs self.now.history) }
    {
        self.order.pairs_held()
    }
}

impl Asks for State {
    ghost use Rattle.std.specs.Prelude.{length};
    ghost use Rattle.kr_order.specs.Held.{held_events, held_pairs};

    ghost history = { λ s. s.history };

    ghost cells = { λ s. s.cells };

    ghost held = { λ s. length (held_events s.history) };

    ghost pairs_held = { λ s. length (held_pairs s.history) };

    fn fit(&self, scratch: &mut Scratch) -> Result<(), NoMemory> {
        self.order.fit(scratch)
    }

    fn answer<L: Ledger>(
        &self,
        scratch: &mut Scratch,
        a: EventId,
        b: EventId,
        steps: &mut Steps<L>,
    ) -> Answer {
        self.order.answer(scratch, a, b, steps)
    }

    fn entry(&self) -> u64 {
        self.count()
    }
}
