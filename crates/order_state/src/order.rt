//! The order that a state keeps: the references of the live events, and the events and pairs that these hold. What no
//! live event needs is taken out by the release that leaves it so.
//!
//! Contracts see an `Order` as what is agreed on as far as it is held, and as how many more events and pairs it can
//! take without memory.

ghost use Rattle.std.specs.Prelude.{◌≡◌, ◌+◌, ◌-◌, ◌*◌, ◌^◌, ◌<◌, ◌≤◌, ◌++◌, [], length, IfOk, IfErr, OnOk, OnErr};
ghost use Rattle.kr_order.specs.declared.history.Command.TheVariants.{Create as CreateCommand, Assign as AssignCommand};
ghost use Rattle.kr_order.specs.declared.history.Command.TheVariants.{Acquire as AcquireCommand};
ghost use Rattle.kr_order.specs.declared.history.Command.TheVariants.{Release as ReleaseCommand};
ghost use Rattle.kr_order.specs.History.{births_of};
ghost use Rattle.kr_order.specs.Agreed.{both_live, pairs_after};
ghost use Rattle.kr_order.specs.Reply.{count_reply};
ghost use Rattle.kr_order.specs.Answer.{answer_from};
ghost use Rattle.dep_graph.specs.GraphView.{CanAddAll};
ghost use Rattle.ref_collect.specs.Counts.{count_of};
ghost use Rattle.order_state.specs.Ordered.{agreed_in, Becomes, CanCountOn, IsOrderOf};
ghost use Rattle.order_state.specs.Decision.{adds_of, IsPlan, IsStop, IsDecision};

use crate::kept::Decision;
use batch_assign::{BatchStop, Plan, commit};
use dep_graph::Graph;
use kr_order::{Answer, Batch, Command, EventId, NoMemory, Reply, Steps};
use reach::{Scratch, answer_over};
use ref_collect::{Refs, collect};
use std::alloc::Global;
use std::marker::Model;
use std::sync::ledger::Ledger;

/// The order of the events that are held.
#[derive(Debug, Drop)]
pub struct Order {
    graph: Graph,
    refs: Refs,
}

impl Model for Order {
    ghost use Rattle.std.specs.Prelude.{length, min};
    ghost use Rattle.order_state.specs.Ordered.{Ordered, IsOrder};

    ghost Value = { Ordered };

    ghost view = { λ o. record {
      born = o.refs.born;
      counts = o.refs.counts;
      events = o.graph.vertices;
      pairs = o.graph.pairs;
      cells = length o.graph.slots;
      event_room = min o.graph.spare_vertices o.refs.spare;
      pair_room = o.graph.spare_pairs;
    } };

    ghost invariant = { λ o. IsOrder o.refs.born o.refs.counts o.graph };
}

// Adds the pairs of the plan, if there is one, to the graph.
fn carry_out(graph: &mut Graph, plan: Option<Plan>)
    requires fits { CanAddAll graph.old.vertices graph.old.pairs (adds_of plan) }
    requires room { length (adds_of plan) ≤ graph.old.spare_pairs }
    ensures pairs { graph.new.pairs ≡ graph.old.pairs ++ adds_of plan }
    ensures vertices { graph.new.vertices ≡ graph.old.vertices }
    ensures bare { graph.new.bare ≡ graph.old.bare }
    ensures slots { graph.new.slots ≡ graph.old.slots }
    ensures spare_vertices { graph.new.spare_vertices ≡ graph.old.spare_vertices }
    ensures spare_pairs { graph.old.spare_pairs ≤ graph.new.spare_pairs + length (adds_of plan) }
{
    match plan {
        Some(plan) => {
            let _ = commit(graph, plan);
        }
        None => {}
    }
}

// What is told of an event that has so many references, and now has another number of them.
fn counted(before: u64, now: u64) -> Reply
    ensures { result ≡ count_reply before now }
{
    if 0 < before {
        Reply::Count(now)
    } else {
        Reply::Unknown(0)
    }
}

impl Order {
    /// The order without an event. It takes no memory.
    pub fn new(alloc: Global) -> Self
        ensures { IsOrderOf [] result }
    {
        Order {
            graph: Graph::new(alloc),
            refs: Refs::new(alloc),
        }
    }

    /// Makes room for so many more events and pairs.
    pub fn reserve(&mut self, events: usize, pairs: usize) -> Result<(), NoMemory>
        ensures born { self.new.born ≡ self.old.born }
        ensures counts { self.new.counts ≡ self.old.counts }
        ensures events { self.new.events ≡ self.old.events }
        ensures pairs { self.new.pairs ≡ self.old.pairs }
        ensures cells { self.new.cells ≡ self.old.cells }
        ensures event_room { OnOk result (events ≤ self.new.event_room) }
        ensures pair_room { OnOk result (pairs ≤ self.new.pair_room) }
        ensures keeps_event_room { self.old.event_room ≤ self.new.event_room }
        ensures keeps_pair_room { self.old.pair_room ≤ self.new.pair_room }
    {
        self.graph.reserve(events, pairs)?;
        self.refs.reserve(events)?;
        Ok(())
    }

    // Takes in the next event.
    fn create(&mut self)
        requires few { self.old.born < 2 ^ 58 }
        requires room { 1 ≤ self.old.event_room }
        ensures becomes { Becomes CreateCommand self.old self.new }
        ensures event_room { self.old.event_room ≤ self.new.event_room + 1 }
        ensures pair_room { self.old.pair_room ≤ self.new.pair_room }
    {
        let id = EventId(self.refs.born() + 1);
        self.graph.add_vertex(id);
        self.refs.birth(id);
    }

    // Gives the event one more reference, if it is live.
    fn acquire(&mut self, event: EventId)
        requires { CanCountOn self.old }
        ensures becomes { Becomes (AcquireCommand event) self.old self.new }
        ensures event_room { self.old.event_room ≤ self.new.event_room }
        ensures pair_room { self.old.pair_room ≤ self.new.pair_room }
    {
        let _ = self.refs.acquire(event);
    }

    // Takes one reference from the event, and at the last lets go of all that no live event needs.
    fn release(&mut self, event: EventId)
        ensures becomes { Becomes (ReleaseCommand event) self.old self.new }
        ensures event_room { self.old.event_room ≤ self.new.event_room }
        ensures pair_room { self.old.pair_room ≤ self.new.pair_room }
    {
        let is_last = self.refs.count(event) == 1;
        let _ = self.refs.release(event);
        if is_last {
            let _ = collect(&mut self.graph, &self.refs, event);
        }
    }

    /// Does what was decided on the command. It takes no memory.
    pub fn apply(&mut self, command: &Command, plan: Option<Plan>)
        requires few { self.old.born < 2 ^ 58 }
        requires counts { CanCountOn self.old }
        requires adds { pairs_after command.now (agreed_in self.old) ≡ self.old.pairs ++ adds_of plan }
        requires event_room { births_of command.now ≤ self.old.event_room }
        requires pair_room { length (adds_of plan) ≤ self.old.pair_room }
        ensures becomes { Becomes command.now self.old self.new }
        ensures event_room { self.old.event_room ≤ self.new.event_room + births_of command.now }
        ensures pair_room { self.old.pair_room ≤ self.new.pair_room + length (adds_of plan) }
    {
        match command {
            Command::Create => self.create(),
            Command::Assign(_) => carry_out(&mut self.graph, plan),
            Command::Acquire(event) => self.acquire(*event),
            Command::Release(event) => self.release(*event),
        }
    }

    // The plan of the batch, or why it has none.
    fn plan<L: Ledger>(
        &self,
        alloc: Global,
        batch: &Batch,
        scratch: &mut Scratch,
        steps: &mut Steps<L>,
    ) -> Result<Plan, BatchStop>
        requires { self.now.cells ≤ scratch.old }
        ensures ok { IfOk result (IsPlan (agreed_in self.now) batch.now) }
        ensures err { IfErr result (IsStop (agreed_in self.now) batch.now) }
    {
        batch_assign::plan(alloc, &self.graph, &self.refs, batch, scratch, steps)
    }

    /// What the batch is to do.
    pub fn decide<L: Ledger>(
        &self,
        alloc: Global,
        batch: &Batch,
        scratch: &mut Scratch,
        steps: &mut Steps<L>,
    ) -> Result<Decision, NoMemory>
        requires { self.now.cells ≤ scratch.old }
        ensures { IfOk result (IsDecision (agreed_in self.now) (AssignCommand batch.now)) }
    {
        match self.plan(alloc, batch, scratch, steps) {
            Ok(plan) => Ok(Decision {
                reply: Reply::Assigned(plan.outcomes.copy()?),
                plan: Some(plan),
            }),
            Err(BatchStop::Unknown(i)) => Ok(Decision {
                reply: Reply::Unknown(i),
                plan: None,
            }),
            Err(BatchStop::Contradicts(i)) => Ok(Decision {
                reply: Reply::Contradicts(i),
                plan: None,
            }),
            Err(BatchStop::NoMemory) => Err(NoMemory),
        }
    }

    /// What an acquire of the event is told.
    pub fn acquired(&self, event: EventId) -> Reply
        requires { CanCountOn self.now }
        ensures { result ≡ count_reply (count_of self.now.counts event.0) (count_of self.now.counts event.0 + 1) }
    {
        let count = self.refs.count(event);
        counted(count, count + 1)
    }

    /// What a release of the event is told.
    pub fn released(&self, event: EventId) -> Reply
        ensures { result ≡ count_reply (count_of self.now.counts event.0) (count_of self.now.counts event.0 - 1) }
    {
        let count = self.refs.count(event);
        counted(count, count.saturating_sub(1))
    }

    /// Makes room in the scratch for a search in the order. After `NoMemory` the room is as before.
    pub fn fit(&self, scratch: &mut Scratch) -> Result<(), NoMemory>
        ensures ok { OnOk result (self.now.cells ≤ scratch.new) }
        ensures room { scratch.old ≤ scratch.new }
        ensures err { OnErr result (scratch.new ≡ scratch.old) }
    {
        scratch.fit(&self.graph)
    }

    /// How `a` stands to `b`; `Unknown` where one of them is not live. It takes no memory.
    pub fn answer<L: Ledger>(
        &self,
        scratch: &mut Scratch,
        a: EventId,
        b: EventId,
        steps: &mut Steps<L>,
    ) -> Answer
        requires { self.now.cells ≤ scratch.old }
        ensures value { result ≡ answer_from (agreed_in self.now) a.0 b.0 }
        ensures most { steps.new ≤ steps.old + 2 * (length self.now.events + length self.now.pairs) }
        ensures room { scratch.new ≡ scratch.old }
    {
        if !self.are_live(a, b) {
            return Answer::Unknown;
        }
        answer_over(&self.graph, scratch, a, b, steps)
    }

    // Whether both events are live.
    fn are_live(&self, a: EventId, b: EventId) -> bool
        ensures { result ≡ both_live (agreed_in self.now) a.0 b.0 }
    {
        0 < self.refs.count(a) && 0 < self.refs.count(b)
    }

    /// How many events were made.
    pub fn born(&self) -> u64
        ensures { result ≡ self.now.born }
    {
        self.refs.born()
    }

    /// How many events are held.
    pub fn held(&self) -> u64
        ensures { result ≡ length self.now.events }
    {
        self.graph.held()
    }

    /// How many pairs are held.
    pub fn pairs_held(&self) -> u64
        ensures { result ≡ length self.now.pairs }
    {
        self.graph.pairs_held()
    }
}
