//! The successors of an event: the events to which its pairs lead.
//!
//! Contracts see an `Outs` as the list of the successors that are left, each as its cell and its number.

ghost use Rattle.std.specs.Prelude.{◌≡◌, length};
ghost use Rattle.std.specs.Iterator.{YieldsFirstBy, item_count};
ghost use Rattle.dep_graph.specs.Links.{chain, IsBelow, AreChained};

use kr_order::EventId;
use std::marker::Model;

/// An event to which a pair leads, and the cell that it stands in.
#[derive(Clone, Copy, Debug, PartialEq, Eq)]
pub struct Successor {
    pub cell: usize,
    pub event: EventId,
}

// A pair, with the indices of the cells of its events, and that of the next older pair of its first.
#[derive(Clone, Copy, Debug)]
pub(crate) struct Link {
    pub first: EventId,
    pub second: EventId,
    pub from: usize,
    pub to: usize,
    pub next: Option<usize>,
}

/// The successors of an event that are left, from the newest pair to the oldest.
#[derive(Drop)]
pub struct Outs<'a> {
    links: &'a [Option<Link>],
    next: Option<usize>,
}

impl<'a> Model for Outs<'a> {
    ghost use Rattle.std.specs.Prelude.{ℕ, List, length};
    ghost use Rattle.dep_graph.specs.Links.{chain, IsBelow, AreChained};

    ghost Value = { List (ℕ × ℕ) };

    ghost view = { λ outs. chain outs.links.now outs.next };

    ghost invariant = { λ outs. AreChained outs.links.now × IsBelow (length outs.links.now) outs.next };
}

impl<'a> Outs<'a> {
    // What the links lead to that follow one another from an index on.
    pub(crate) fn new(links: &'a [Option<Link>], next: Option<usize>) -> Self
        requires chained { AreChained links.now }
        requires below { IsBelow (length links.now) next }
        ensures { result ≡ chain links.now next }
    {
        Outs { links, next }
    }
}

impl<'a> Iterator for Outs<'a> {
    type Item = Successor;

    ghost next_gives = { YieldsFirstBy (λ out. (out.cell, out.event.0)) (λ rest. rest) };

    ghost remaining = { item_count (λ rest. rest) };

    fn next(&mut self) -> Option<Successor> {
        let at = match self.next {
            Some(at) => at,
            None => return None,
        };
        match self.links[at] {
            Some(link) => {
                self.next = link.next;
                Some(Successor {
                    cell: link.to,
                    event: link.second,
                })
            }
            None => None,
        }
    }
}
