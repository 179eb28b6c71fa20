//! Views: who is in the chain, and in which order.

ghost use Rattle.std.specs.Prelude.{◌≡◌, ◌<◌, length, IfSome};
ghost use Rattle.kr_order.specs.View.{index_in, in_chain, names, last_member, next_of, prev_of, is_tail, is_joiner};

use crate::{Copied, NoMemory, ServerId, Servers};
use std::alloc::Global;

/// A numbered chain of servers, its first the head and its last the tail, and perhaps one that is being added
/// behind it. The ids rise along the chain, and a joiner's is greater than all of them.
#[derive(Debug, Drop)]
pub struct View {
    /// From 1; each view that the manager makes has the next number.
    pub number: u64,
    pub chain: Servers,
    pub joiner: Option<ServerId>,
}

impl View {
    // The index of the server in the chain.
    fn index_of(&self, id: ServerId) -> Option<usize>
        ensures value { result ≡ index_in self.now id }
        ensures bound { IfSome result (λ i. i < length self.now.chain) }
    {
        self.chain
            .as_slice()
            .iter()
            .position(|member| member.0 == id.0)
    }

    // Whether the server is the one that is being added.
    fn is_joiner(&self, id: ServerId) -> bool
        ensures { result ≡ is_joiner self.now.joiner id }
    {
        match self.joiner {
            Some(joiner) => joiner.0 == id.0,
            None => false,
        }
    }

    /// Whether the server is a member of the chain.
    pub fn in_chain(&self, id: ServerId) -> bool
        ensures { result ≡ in_chain self.now id }
    {
        self.index_of(id).is_some()
    }

    /// Whether the view names the server: as a member of its chain, or as its joiner.
    pub fn names(&self, id: ServerId) -> bool
        ensures { result ≡ names self.now id }
    {
        self.in_chain(id) || self.is_joiner(id)
    }

    /// The last member of the chain; `None` where it has no member.
    pub fn last_member(&self) -> Option<ServerId>
        ensures { result ≡ last_member self.now }
    {
        let members = self.chain.len();
        self.chain.get(members.saturating_sub(1)).copied()
    }

    /// The server that follows this one: the next member of the chain, or the joiner for the last member. `None`
    /// where none follows, and where the server is no member.
    pub fn next_of(&self, id: ServerId) -> Option<ServerId>
        ensures { result ≡ next_of self.now id }
    {
        let members = self.chain.len();
        match self.index_of(id) {
            Some(i) => {
                if i + 1 < members {
                    self.chain.get(i + 1).copied()
                } else {
                    self.joiner
                }
            }
            None => None,
        }
    }

    /// The server before this one: the member before it, or the last member for the joiner. `None` for the first
    /// member, and where the view does not name the server.
    pub fn prev_of(&self, id: ServerId) -> Option<ServerId>
        ensures { result ≡ prev_of self.now id }
    {
        match self.index_of(id) {
            Some(0) => None,
            Some(i) => self.chain.get(i - 1).copied(),
            None => {
                if self.is_joiner(id) {
                    self.last_member()
                } else {
                    None
                }
            }
        }
    }

    /// Whether the server is the tail: a member of the chain that nobody follows, no joiner either.
    pub fn is_tail(&self, id: ServerId) -> bool
        ensures { result ≡ is_tail self.now id }
    {
        self.in_chain(id) && self.next_of(id).is_none()
    }
}

impl Copied for View {
    fn copy(&self, _alloc: Global) -> Result<Self, NoMemory> {
        Ok(View {
            number: self.number,
            chain: self.chain.copy()?,
            joiner: self.joiner,
        })
    }
}
