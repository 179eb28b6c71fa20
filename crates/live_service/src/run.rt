//! The calls of many clients, each on a thread of its own.

ghost use Rattle.std.specs.Prelude.{◌≡◌, ◌<◌, ◌≤◌, ◌+◌, ◌-◌, ◌^◌, ◌++◌, [], ℕ, false, List, All, length, slice_index_or, vec_capacity};
ghost use Rattle.std.specs.Prelude.{IfOk, OnOk};
ghost use Rattle.kr_order.specs.declared.history.Entry.{Entry};
ghost use Rattle.kr_order.specs.Done.{done_of};
ghost use Rattle.script_lang.specs.declared.live.LiveCall.{LiveCall};
ghost use Rattle.script_lang.specs.Live.{AreClients};
ghost use Rattle.live_service.specs.Lawful.{LiveLawful, IsByOneOf, calls_of, own_call};
ghost use Rattle.live_service.specs.declared.run.Caller.{Caller};
ghost use Rattle.live_service.specs.Runs.{IsBehind, IsCaller, IsFresh, IsRun, AreNumbered, HasEnough, passes_of, answers_of};

use crate::calls::{CallAnswers, answer};
use crate::{Pass, Passes, Service};
use kr_order::{ClientId, DoneList, Listed, NoMemory};
use kr_text::Gate;
use script_lang::{LiveCall, LivePlan};
use std::alloc::Global;
use std::sync::Wait;
use std::thread;
use std::thread::Threads;

/// What the clients are told, in the order of their numbers.
pub type ClientAnswers = Listed<CallAnswers>;

/// What came of a plan: what each client was told, and the journal.
#[derive(Debug, Drop)]
pub struct LiveRun {
    pub calls: ClientAnswers,
    pub journal: DoneList,
}

// A client with its pass, how many calls it made or began, what it was told, and whether a call found no memory.
#[derive(Drop)]
pub struct Caller {
    pub pass: Pass,
    pub number: u32,
    pub answers: CallAnswers,
    pub failed: bool,
}

impl Caller {
    // Makes the call, where it is the client's.
    fn call<R: Wait, G: Gate>(
        &mut self,
        rt: &R,
        alloc: Global,
        service: &Service,
        gate: &G,
        call: &(ClientId, LiveCall),
    ) -> Result<(), NoMemory>
        requires caller { IsCaller service.now.id self.old }
        requires few { self.old.number < 2 ^ 32 - 1 }
        ensures caller { IsCaller service.now.id self.new }
        ensures number { self.new.number ≤ self.old.number + 1 }
        ensures client { self.new.pass.client ≡ self.old.pass.client }
        ensures ok { OnOk result ((calls : List LiveCall) → IsBehind calls self.old
            → IsBehind (calls ++ own_call self.old.pass.client call.now) self.new) }
    {
        if call.0.0 != self.pass.client().0 {
            return Ok(());
        }
        self.number += 1;
        let told = answer(
            rt,
            alloc,
            service,
            gate,
            &mut self.pass,
            self.number,
            &call.1,
        )?;
        self.answers.push(told)?;
        Ok(())
    }

    // Makes the client's calls, one after the other.
    fn call_all<R: Wait, G: Gate>(
        &mut self,
        rt: &R,
        alloc: Global,
        service: &Service,
        plan: &LivePlan,
        gate: &G,
    ) -> Result<(), NoMemory>
        requires fresh { IsFresh service.now.id self.old }
        requires few { length plan.now.calls < 2 ^ 32 }
        ensures service { self.new.pass.service ≡ service.now.id }
        ensures client { self.new.pass.client ≡ self.old.pass.client }
        ensures ok { OnOk result (IsBehind (calls_of self.old.pass.client plan.now.calls) self.new) }
    {
        for call in plan.calls.as_slice() {
            self.call(rt, alloc, service, gate, call)?;
        }
        Ok(())
    }

    // The same, noting whether there was memory for all.
    fn run<R: Wait, G: Gate>(
        &mut self,
        rt: &R,
        alloc: Global,
        service: &Service,
        plan: &LivePlan,
        gate: &G,
    )
        requires fresh { IsFresh service.now.id self.old }
        requires few { length plan.now.calls < 2 ^ 32 }
        ensures client { self.new.pass.client ≡ self.old.pass.client }
        ensures run { IsRun service.now.id plan.now.calls self.new }
    {
        self.failed = self.call_all(rt, alloc, service, plan, gate).is_err();
    }
}

// The client of a pass, before its calls.
fn caller_of(alloc: Global, pass: Pass) -> Caller
    requires known { pass.known ≡ [] }
    requires made { pass.made ≡ 0 }
    ensures fresh { IsFresh pass.service result }
    ensures client { result.pass.client ≡ pass.client }
{
    Caller {
        pass,
        number: 0,
        answers: CallAnswers::new(alloc),
        failed: false,
    }
}

// A caller for each pass, in the room for them.
fn callers_of(alloc: Global, mut passes: Passes, mut room: Vec<Caller>) -> Vec<Caller>
    requires all { passes.left ≡ passes.passes }
    requires empty { room.items ≡ [] }
    requires room { passes.left ≤ vec_capacity room }
    ensures fresh { All (IsFresh passes.service) result.items }
    ensures numbered { AreNumbered 1 result.items }
    ensures many { length result.items ≡ passes.passes }
{
    while let Some(pass) = passes.take() {
        room.push_reserved(caller_of(alloc, pass));
    }
    room
}

// Each client makes its calls, on a thread of its own.
fn call_on_threads<R: Threads + Wait + Sync, G: Gate + Sync>(
    rt: &R,
    alloc: Global,
    service: &Service,
    plan: &LivePlan,
    gate: &G,
    callers: &mut Vec<Caller>,
)
    requires some { 0 < length callers.old.items }
    requires fresh { All (IsFresh service.now.id) callers.old.items }
    requires few { length plan.now.calls < 2 ^ 32 }
    ensures run { All (IsRun service.now.id plan.now.calls) callers.new.items }
    ensures clients { (i : ℕ) (d : Caller) → i < length callers.old.items
        → (slice_index_or callers.new.items i d).pass.client.0 ≡ (slice_index_or callers.old.items i d).pass.client.0 }
    ensures many { length callers.new.items ≡ length callers.old.items }
{
    let threads = callers.len();
    thread::for_each_mut(
        rt,
        callers.as_mut_slice(),
        threads,
        &|_, caller| caller.run(rt, alloc, service, plan, gate),
    );
}

// The passes, the answers, and whether a client found no memory, in the room for them.
fn parted(
    callers: Vec<Caller>,
    mut passes: Vec<Pass>,
    mut calls: Vec<CallAnswers>,
) -> (Vec<Pass>, Vec<CallAnswers>, bool)
    requires no_passes { passes.items ≡ [] }
    requires room { length callers.items ≤ vec_capacity passes }
    requires no_calls { calls.items ≡ [] }
    requires room_for_calls { length callers.items ≤ vec_capacity calls }
    ensures passes { result.0.items ≡ passes_of callers.items }
    ensures calls { result.1.items ≡ answers_of callers.items }
    ensures enough { result.2 ≡ false → All HasEnough callers.items }
{
    let mut failed = false;
    for caller in callers {
        let Caller {
            pass,
            number: _,
            answers,
            failed: found_none,
        } = caller;
        passes.push_reserved(pass);
        calls.push_reserved(answers);
        failed |= found_none;
    }
    (passes, calls, failed)
}

/// Makes the calls of a plan, each client's on a thread of its own and in the order of their lines, by way of a gate, and
/// ends with the journal. It waits for all clients.
///
/// `NoMemory` where there is none for the service, a call or its answer; each client stops at its first call that finds
/// none. The plan has 1 to 16 clients and fewer than 2^32 calls, each of one of the clients. Of a plan that was read all but
/// the number of calls is known by `laws::plans_can_be_run`.
pub fn run_live<R: Threads + Wait + Sync, G: Gate + Sync>(
    rt: &R,
    alloc: Global,
    plan: &LivePlan,
    gate: &G,
) -> Result<LiveRun, NoMemory>
    requires clients { AreClients plan.now.clients }
    requires each { All (IsByOneOf plan.now.clients) plan.now.calls }
    requires few { length plan.now.calls < 2 ^ 32 }
    ensures { IfOk result (λ run. (history : List Entry) × (run.journal ≡ done_of history) × LiveLawful plan.now run.calls history) }
{
    let clients = plan.clients as usize;
    let room = Vec::with_capacity(alloc, clients)?;
    let passes = Vec::with_capacity(alloc, clients)?;
    let calls = Vec::with_capacity(alloc, clients)?;
    let (service, all) = Service::new(rt, alloc, plan.clients)?;
    let mut callers = callers_of(alloc, all, room);
    call_on_threads(rt, alloc, &service, plan, gate, &mut callers);
    let (passes, calls, failed) = parted(callers, passes, calls);
    let journal = service.close(rt, passes);
    if failed {
        return Err(NoMemory);
    }
    Ok(LiveRun {
        calls: ClientAnswers::from_vec(calls),
        journal,
    })
}
