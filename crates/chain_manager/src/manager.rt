//! The manager and its calls.

ghost use Rattle.std.specs.Prelude.{◌≡◌, ◌≢◌, ◌↔◌, ◌≤◌, ◌<◌, ◌∷◌, [], true, false, IsTrue, IsNone, map, IfOk, IfSome, OnOk, OnErr, Err};
ghost use Rattle.std.specs.Prelude.{Some, None};
ghost use Rattle.kr_order.specs.View.{first_view, names};
ghost use Rattle.kr_protocol.specs.Manager.{members_but, joiner_but, without, with_joiner, promoted, new_manager, goes_to, may_promote};
ghost use Rattle.kr_protocol.specs.Manager.{removes, adds, promotes, next_server, view_packet, announces};
ghost use Rattle.chain_manager.specs.Bounds.{IsBounded};

use kr_order::{Copied, Listed, Message, NoMemory, Node, Packet, Packets, ServerId, Servers, View};
use std::alloc::Global;
use std::marker::Model;
use thiserror::Error;

/// So many servers are ever made at the most.
pub const MOST_SERVERS: u32 = 64;

/// Why the manager makes no view.
#[derive(Clone, Copy, Debug, PartialEq, Eq, Error)]
pub enum Deny {
    /// The server has not stopped.
    #[error("the server has not stopped")]
    NotStopped,
    /// The current view does not name the server.
    #[error("the current view does not name the server")]
    NotMember,
    /// The current view has a joiner.
    #[error("the current view has a joiner")]
    JoinerThere,
    /// 64 servers were made.
    #[error("64 servers were made")]
    ServersSpent,
    /// There was no memory.
    #[error("out of memory")]
    NoMemory,
}

impl From<NoMemory> for Deny {
    ghost use Rattle.std.specs.Prelude.{◌≡◌};
    ghost use Rattle.chain_manager.specs.declared.manager.Deny.TheVariants.{NoMemory as DenyNoMemory};

    ghost from_gives = { λ _ deny. deny ≡ DenyNoMemory };

    fn from(_: NoMemory) -> Self {
        Deny::NoMemory
    }
}

/// The manager of a chain. It never stops.
#[derive(Debug, Drop)]
pub struct Manager {
    alloc: Global,
    earlier: Listed<View>,
    current: View,
    made: u32,
}

impl Model for Manager {
    ghost use Rattle.kr_protocol.specs.Manager.{Manager as Managing};
    ghost use Rattle.chain_manager.specs.Bounds.{IsBounded};

    ghost Value = { Managing };

    ghost view = { λ m. record { earlier = m.earlier; current = m.current; made = m.made } };

    ghost invariant = { λ m. IsBounded m.current m.made };
}

// The view of so many servers, in the order of their numbers.
fn first_view(alloc: Global, servers: u32) -> Result<View, NoMemory>
    ensures { IfOk result (λ view. view ≡ first_view servers) }
{
    let mut chain = Servers::new(alloc);
    for i in 0..servers {
        chain.push(ServerId(i + 1))?;
    }
    Ok(View {
        number: 1,
        chain,
        joiner: None,
    })
}

// The members but this one.
fn members_but(alloc: Global, chain: &[ServerId], id: ServerId) -> Result<Servers, NoMemory>
    ensures { IfOk result (λ members. members ≡ members_but chain.now id) }
{
    let mut members = Servers::new(alloc);
    for member in chain {
        if member.0 != id.0 {
            members.push(*member)?;
        }
    }
    Ok(members)
}

// The joiner, where it is not this one.
fn joiner_but(joiner: Option<ServerId>, id: ServerId) -> Option<ServerId>
    ensures { result ≡ joiner_but joiner id }
{
    match joiner {
        Some(joiner) if joiner.0 != id.0 => Some(joiner),
        _ => None,
    }
}

// The next view, without this server.
fn without(alloc: Global, view: &View, id: ServerId) -> Result<View, NoMemory>
    requires most { view.now.number < 1000 }
    ensures { IfOk result (λ next. next ≡ without view.now id) }
{
    Ok(View {
        number: view.number + 1,
        chain: members_but(alloc, view.chain.as_slice(), id)?,
        joiner: joiner_but(view.joiner, id),
    })
}

// The packet to a server, with a view.
fn view_packet(alloc: Global, view: &View, id: ServerId) -> Result<Packet, NoMemory>
    ensures { IfOk result (λ packet. packet ≡ view_packet view.now id) }
{
    let view = view.copy(alloc)?;
    Ok(Packet {
        from: Node::Manager,
        to: Node::Server(id),
        message: Message::NewView { view },
    })
}

// The packets to these servers, each with the view.
fn told(alloc: Global, view: &View, ids: &[ServerId]) -> Result<Packets, NoMemory>
    ensures { IfOk result (λ packets. packets ≡ map (view_packet view.now) ids.now) }
{
    let mut packets = Packets::new(alloc);
    for id in ids {
        packets.push(view_packet(alloc, view, *id)?)?;
    }
    Ok(packets)
}

// The packets to all whom the view names.
#[tactic(auto, using(crate::proofs::BoundLemmas::announced, crate::proofs::BoundLemmas::announced_alone))]
fn announce(alloc: Global, view: &View) -> Result<Packets, NoMemory>
    ensures { IfOk result (λ packets. packets ≡ announces view.now) }
{
    let mut packets = told(alloc, view, view.chain.as_slice())?;
    match view.joiner {
        None => Ok(packets),
        Some(joiner) => {
            packets.push(view_packet(alloc, view, joiner)?)?;
            Ok(packets)
        }
    }
}

impl Manager {
    /// The manager of so many servers, 1 to 8, before anything happens: its current view is the first, of all of them.
    #[tactic(auto, using(crate::proofs::BoundLemmas::first_bounded))]
    pub fn new(alloc: Global, servers: u32) -> Result<Manager, NoMemory>
        requires some { 1 ≤ servers }
        requires most { servers ≤ 8 }
        ensures { IfOk result (λ manager. manager ≡ new_manager servers) }
    {
        Ok(Manager {
            alloc,
            earlier: Listed::new(alloc),
            current: first_view(alloc, servers)?,
            made: servers,
        })
    }

    /// The current view.
    pub fn current(&self) -> &View
        ensures { result.now ≡ self.now.current }
    {
        &self.current
    }

    /// How many servers were ever made, 1 to 64.
    pub fn made(&self) -> u32
        ensures { result ≡ self.now.made }
    {
        self.made
    }

    /// Whether the current view names the server: as a member of its chain, or as its joiner.
    pub fn names(&self, id: ServerId) -> bool
        ensures { result ≡ names self.now.current id }
    {
        self.current.names(id)
    }

    /// The current view in a packet for each whom it names: the members in the order of the chain, then the joiner.
    pub fn announce(&self) -> Result<Packets, NoMemory>
        ensures { IfOk result (λ packets. packets ≡ announces self.now.current) }
    {
        announce(self.alloc, &self.current)
    }

    // Goes on to this view, and answers a copy of it. After `NoMemory` nothing has changed.
    fn go_to(&mut self, view: View, made: u32) -> Result<View, NoMemory>
        requires bounded { IsBounded view made }
        ensures ok { IfOk result (λ copy. copy ≡ view) }
        ensures new { OnOk result (self.new ≡ goes_to self.old view made) }
        ensures err { OnErr result (self.new ≡ self.old) }
    {
        let copy = view.copy(self.alloc)?;
        let before = self.current.copy(self.alloc)?;
        self.earlier.push(before)?;
        self.current = view;
        self.made = made;
        Ok(copy)
    }

    /// The manager hears of a server, and whether it has stopped: the next view is without it, and is answered. The server
    /// that has stopped must not be the whole chain. `NotStopped` comes exactly where it has not stopped, else `NotMember`
    /// exactly where the current view does not name it; after an error nothing has changed.
    pub fn notice(&mut self, id: ServerId, stopped: bool) -> Result<View, Deny>
        requires { IsTrue stopped → self.old.current.chain ≢ id ∷ [] }
        ensures view { IfOk result (λ view. view ≡ without self.old.current id) }
        ensures new { OnOk result (self.new ≡ removes self.old id) }
        ensures not_stopped { (result ≡ Err Deny.NotStopped) ↔ (stopped ≡ false) }
        ensures not_member { (result ≡ Err Deny.NotMember) ↔ ((stopped ≡ true) × (names self.old.current id ≡ false)) }
        ensures only { (result ≢ Err Deny.JoinerThere) × (result ≢ Err Deny.ServersSpent) }
        ensures err { OnErr result (self.new ≡ self.old) }
    {
        if !stopped {
            return Err(Deny::NotStopped);
        }
        if !self.current.names(id) {
            return Err(Deny::NotMember);
        }
        let view = without(self.alloc, &self.current, id)?;
        let view = self.go_to(view, self.made)?;
        Ok(view)
    }

    /// A new server joins, with the next id: it and the next view, of which it is the joiner, are answered. `JoinerThere`
    /// comes exactly where the current view has a joiner, else `ServersSpent` exactly where 64 servers were made; after an
    /// error nothing has changed.
    pub fn join(&mut self) -> Result<(ServerId, View), Deny>
        ensures id { IfOk result (λ joined. joined.0 ≡ next_server self.old) }
        ensures view { IfOk result (λ joined. joined.1 ≡ with_joiner self.old.current (next_server self.old)) }
        ensures new { OnOk result (self.new ≡ adds self.old) }
        ensures joiner_there { (result ≡ Err Deny.JoinerThere) ↔ (self.old.current.joiner ≢ None) }
        ensures spent { (result ≡ Err Deny.ServersSpent) ↔ ((self.old.current.joiner ≡ None) × (self.old.made ≡ MOST_SERVERS)) }
        ensures only { (result ≢ Err Deny.NotStopped) × (result ≢ Err Deny.NotMember) }
        ensures err { OnErr result (self.new ≡ self.old) }
    {
        if self.current.joiner.is_some() {
            return Err(Deny::JoinerThere);
        }
        if self.made >= MOST_SERVERS {
            return Err(Deny::ServersSpent);
        }
        let id = ServerId(self.made + 1);
        let view = View {
            number: self.current.number + 1,
            chain: self.current.chain.copy()?,
            joiner: Some(id),
        };
        let view = self.go_to(view, self.made + 1)?;
        Ok((id, view))
    }

    /// A server tells that the joiner has caught up: the joiner becomes the last member, and the next view is answered.
    /// `None` exactly where the server is not the last member of the current view, or the joiner is not its joiner; then,
    /// and after `NoMemory`, which comes only where the joiner is to become a member, nothing has changed.
    pub fn joined(&mut self, from: ServerId, joiner: ServerId) -> Result<Option<View>, NoMemory>
        ensures view { IfOk result (λ view. IfSome view (λ view. view ≡ promoted self.old.current joiner)) }
        ensures new { IfOk result (λ view. IfSome view (λ view. self.new ≡ promotes self.old joiner)) }
        ensures none { IfOk result (λ view. IsNone view ↔ (may_promote self.old.current from joiner ≡ false)) }
        ensures same { IfOk result (λ view. IsNone view → self.new ≡ self.old) }
        ensures due { OnErr result (may_promote self.old.current from joiner ≡ true) }
        ensures err { OnErr result (self.new ≡ self.old) }
    {
        if !may_promote(&self.current, from, joiner) {
            return Ok(None);
        }
        let mut chain = self.current.chain.copy()?;
        chain.push(joiner)?;
        let view = View {
            number: self.current.number + 1,
            chain,
            joiner: None,
        };
        let view = self.go_to(view, self.made)?;
        Ok(Some(view))
    }
}

// Whether the server is the last member of the view, and the joiner its joiner.
fn may_promote(view: &View, from: ServerId, joiner: ServerId) -> bool
    ensures { result ≡ may_promote view.now from joiner }
{
    match (view.last_member(), view.joiner) {
        (Some(last), Some(own)) => last.0 == from.0 && own.0 == joiner.0,
        _ => false,
    }
}
