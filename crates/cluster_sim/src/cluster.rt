//! The cluster and its calls.

ghost use Rattle.std.specs.Prelude.{◌≡◌, ◌^◌, ◌-◌, ◌∷◌, [], true, false, length, All, OnOk, OnErr, IfOk};
ghost use Rattle.kr_order.specs.Done.{done_of};
ghost use Rattle.script_lang.specs.declared.script.Event.TheVariants.{Round};
ghost use Rattle.script_lang.specs.Event.{IsEvent};
ghost use Rattle.script_lang.specs.Script.{IsSize};
ghost use Rattle.kr_world.specs.World.{first_world};
ghost use Rattle.kr_world.specs.Sound.{HaveBegun};
ghost use Rattle.kr_world.specs.Lines.{end_lines};
ghost use Rattle.kr_world.specs.Step.{is_full};
ghost use Rattle.kr_world.specs.Round.{is_round, round_calls, round_events, delivery_events, work_events, IsOfRound};
ghost use Rattle.cluster_sim.specs.Steps.{DoesAll, Steps, StepsOnto};

use crate::count::befores;
use crate::round::{calls, deliveries, settled, works};
use crate::step::step;
use chain_manager::Manager;
use cluster_parts::{Bag, Lines, Parts, callers, end_lines, founders, put_step, running};
use kr_order::{DoneList, NoMemory};
use script_lang::Event;
use std::alloc::Global;
use std::marker::Model;
use std::thread::Threads;

/// A cluster of servers and clients in one process.
#[derive(Drop)]
pub struct Cluster {
    alloc: Global,
    parts: Parts,
    failed: bool,
    // how many parts were told as before, or the greatest number where there were more
    befores: u64,
    // so many packets are known to be settled: no round delivers them any more
    settled: u64,
}

impl Model for Cluster {
    ghost use Rattle.std.specs.Prelude.{◌≡◌, false};
    ghost use Rattle.cluster_sim.specs.ClusterStanding.{ClusterStanding};

    ghost Value = { ClusterStanding };

    ghost use Rattle.cluster_parts.specs.PartsStanding.{world_of};
    ghost use Rattle.cluster_sim.specs.Parts.{IsReady};

    ghost view = { λ c. record { world = world_of c.parts; failed = c.failed; befores = c.befores } };

    ghost invariant = { λ c. c.failed ≡ false → IsReady c.parts c.settled };
}

// Whether the line is a round.
fn is_round(event: &Event) -> bool
    ensures { result ≡ is_round event.now }
{
    matches!(event, Event::Round)
}

impl Cluster {
    /// A cluster of so many servers, which are one chain in the order of their numbers, and so many clients, before
    /// its first step. `NoMemory` comes where there is no memory for the nodes.
    pub fn new(alloc: Global, servers: u32, clients: u32) -> Result<Cluster, NoMemory>
        requires { IsSize servers clients }
        ensures { IfOk result (λ cluster. cluster ≡ record { world = first_world servers clients; failed = false; befores = 0 }) }
    {
        let manager = Manager::new(alloc, servers)?;
        let nodes = founders(alloc, manager.current(), servers)?;
        let callers = callers(alloc, manager.current(), clients)?;
        let stopped = running(alloc, servers)?;
        Ok(Cluster {
            alloc,
            parts: Parts {
                manager,
                servers: nodes,
                stopped,
                clients: callers,
                bag: Bag::new(alloc),
                journal: DoneList::new(alloc),
            },
            failed: false,
            befores: 0,
            settled: 0,
        })
    }

    // Does one plain step, and puts its lines behind those that are there.
    fn plain_onto<R: Threads + Sync>(
        &mut self,
        rt: &R,
        event: &Event,
        lines: &mut Vec<u8>,
    ) -> Result<(), NoMemory>
        requires event { IsEvent event.now }
        requires few { HaveBegun (2 ^ 63 - 1) self.old.world.clients }
        ensures { DoesAll self.old (event.now ∷ []) lines.old.items result self.new lines.new.items }
    {
        if self.failed {
            return Err(NoMemory);
        }
        self.failed = true;
        let entries = self.parts.journal.len();
        self.parts.bag.begin();
        let noted = step(rt, self.alloc, &mut self.parts, event)?;
        put_step(lines, entries, &self.parts, &noted)?;
        self.befores = self.befores.saturating_add(befores(&noted));
        self.failed = false;
        Ok(())
    }

    // Does plain steps of a round, one after the other, and puts their lines behind those that are there.
    fn all_onto<R: Threads + Sync>(
        &mut self,
        rt: &R,
        events: &[Event],
        lines: &mut Vec<u8>,
    ) -> Result<(), NoMemory>
        requires each { All IsEvent events.now }
        requires kinds { All IsOfRound events.now }
        requires few { HaveBegun (2 ^ 63 - 1) self.old.world.clients }
        requires whole { self.old.failed ≡ false }
        ensures { DoesAll self.old events.now lines.old.items result self.new lines.new.items }
    {
        for event in events {
            match self.plain_onto(rt, event, lines) {
                Ok(()) => {}
                Err(stop) => return Err(stop),
            }
        }
        Ok(())
    }

    // The steps of a round before its deliveries.
    fn calls(&mut self) -> Result<Vec<Event>, NoMemory>
        requires { self.old.failed ≡ false }
        ensures same { OnOk result (self.new ≡ self.old) }
        ensures stop { OnErr result (self.new.failed ≡ true) }
        ensures events { IfOk result (λ events. events.items ≡ round_calls self.old.world) }
        ensures fit { IfOk result (λ events. All IsEvent events.items) }
    {
        self.failed = true;
        let events = calls(self.alloc, &self.parts)?;
        self.failed = false;
        Ok(events)
    }

    // Does them.
    fn calls_onto<R: Threads + Sync>(&mut self, rt: &R, lines: &mut Vec<u8>) -> Result<(), NoMemory>
        requires few { HaveBegun (2 ^ 63 - 1) self.old.world.clients }
        requires whole { self.old.failed ≡ false }
        ensures { DoesAll self.old (round_calls self.old.world) lines.old.items result self.new lines.new.items }
    {
        let events = self.calls()?;
        self.all_onto(rt, events.as_slice(), lines)
    }

    // The deliveries of a round.
    fn deliveries(&mut self) -> Result<Vec<Event>, NoMemory>
        requires { self.old.failed ≡ false }
        ensures same { OnOk result (self.new ≡ self.old) }
        ensures stop { OnErr result (self.new.failed ≡ true) }
        ensures events { IfOk result (λ events. events.items ≡ delivery_events self.old.world) }
        ensures fit { IfOk result (λ events. All IsEvent events.items) }
    {
        self.failed = true;
        self.settled = settled(&self.parts, self.settled);
        let events = deliveries(self.alloc, &self.parts, self.settled)?;
        self.failed = false;
        Ok(events)
    }

    // Does them.
    fn deliveries_onto<R: Threads + Sync>(
        &mut self,
        rt: &R,
        lines: &mut Vec<u8>,
    ) -> Result<(), NoMemory>
        requires few { HaveBegun (2 ^ 63 - 1) self.old.world.clients }
        requires whole { self.old.failed ≡ false }
        ensures { DoesAll self.old (delivery_events self.old.world) lines.old.items result self.new lines.new.items }
    {
        let events = self.deliveries()?;
        self.all_onto(rt, events.as_slice(), lines)
    }

    // The work of a round.
    fn works(&mut self) -> Result<Vec<Event>, NoMemory>
        requires { self.old.failed ≡ false }
        ensures same { OnOk result (self.new ≡ self.old) }
        ensures stop { OnErr result (self.new.failed ≡ true) }
        ensures events { IfOk result (λ events. events.items ≡ work_events self.old.world) }
        ensures fit { IfOk result (λ events. All IsEvent events.items) }
    {
        self.failed = true;
        let events = works(self.alloc, &self.parts)?;
        self.failed = false;
        Ok(events)
    }

    // Does the steps of a round where the bag is not full.
    fn steps_onto<R: Threads + Sync>(&mut self, rt: &R, lines: &mut Vec<u8>) -> Result<(), NoMemory>
        requires few { HaveBegun (2 ^ 63 - 1) self.old.world.clients }
        requires whole { self.old.failed ≡ false }
        ensures { DoesAll self.old (round_events self.old.world) lines.old.items result self.new lines.new.items }
    {
        let works = self.works()?;
        self.calls_onto(rt, lines)?;
        self.deliveries_onto(rt, lines)?;
        self.all_onto(rt, works.as_slice(), lines)
    }

    // Whether the bag is full.
    fn is_full(&self) -> bool
        ensures { result ≡ is_full self.now.world }
    {
        self.parts.bag.is_full()
    }

    // Does the plain steps of a round, and puts their lines behind those that are there.
    fn round_onto<R: Threads + Sync>(&mut self, rt: &R, lines: &mut Vec<u8>) -> Result<(), NoMemory>
        requires few { HaveBegun (2 ^ 63 - 1) self.old.world.clients }
        ensures { StepsOnto self.old Round lines.old.items result self.new lines.new.items }
    {
        if self.failed {
            return Err(NoMemory);
        }
        if self.is_full() {
            self.plain_onto(rt, &Event::Round, lines)
        } else {
            self.steps_onto(rt, lines)
        }
    }

    /// Does what one line says, and puts the lines of its steps behind those that are there. A step that is refused
    /// changes nothing, and puts a line that says why. After `NoMemory` the cluster has failed, and of the lines nothing
    /// is said. Each client has to have begun fewer than 2^63 queries before.
    pub fn step_onto<R: Threads + Sync>(
        &mut self,
        rt: &R,
        event: &Event,
        lines: &mut Vec<u8>,
    ) -> Result<(), NoMemory>
        requires event { IsEvent event.now }
        requires few { HaveBegun (2 ^ 63 - 1) self.old.world.clients }
        ensures { StepsOnto self.old event.now lines.old.items result self.new lines.new.items }
    {
        if is_round(event) {
            self.round_onto(rt, lines)
        } else {
            self.plain_onto(rt, event, lines)
        }
    }

    /// Does what one line says, and answers the lines of its steps. A step that is refused changes nothing and answers a
    /// line that says why. After `NoMemory` the cluster has failed. Each client has to have begun fewer than 2^63 queries
    /// before.
    pub fn step<R: Threads + Sync>(&mut self, rt: &R, event: &Event) -> Result<Lines, NoMemory>
        requires event { IsEvent event.now }
        requires few { HaveBegun (2 ^ 63 - 1) self.old.world.clients }
        ensures { Steps self.old event.now result self.new }
    {
        let mut lines = Vec::new(self.alloc);
        self.step_onto(rt, event, &mut lines)?;
        Ok(Lines::from_vec(lines))
    }

    /// The lines of the whole history, at the end of a run. It changes nothing.
    pub fn finish(&self) -> Result<Lines, NoMemory>
        ensures whole { OnOk result (self.now.failed ≡ false) }
        ensures lines { IfOk result (λ lines. lines ≡ end_lines self.now.world.history) }
    {
        if self.failed {
            return Err(NoMemory);
        }
        end_lines(self.alloc, self.parts.journal.as_slice())
    }

    /// The history, each entry with its place and its reply. Of a cluster that has failed nothing is said.
    pub fn journal(&self) -> &DoneList
        ensures { self.now.failed ≡ false → result.now ≡ done_of self.now.world.history }
    {
        &self.parts.journal
    }

    /// How many packets were sent. Of a cluster that has failed nothing is said.
    pub fn packets(&self) -> u64
        ensures { self.now.failed ≡ false → result ≡ length self.now.world.bag }
    {
        self.parts.bag.len()
    }

    /// How many pairs of queries a client was told to be in their order, in all steps; the greatest number where there
    /// were more.
    pub fn befores(&self) -> u64
        ensures { result ≡ self.now.befores }
    {
        self.befores
    }
}
