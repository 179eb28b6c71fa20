//! The bag.

ghost use Rattle.std.specs.Prelude.{◌≡◌, ◌≤◌, ◌+◌, ◌^◌, min, length, All, IfOk, IfSome, IfNone, OnErr, option_map};
ghost use Rattle.kr_wire.specs.Valid.{IsPacket};
ghost use Rattle.kr_wire.specs.Spelling.{spelling};
ghost use Rattle.kr_wire.specs.Decoding.{IsSpelling};
ghost use Rattle.kr_order.specs.Marks.{is_marked, marked};
ghost use Rattle.net_bag.specs.Sent.{nothing_sent, sent_after, spelling_at, IsSent, bytes_of, IsNextOpen, HasNoOpen, IsTo};

use crate::bits::{first_unset, put_word, set_bit};
use crate::segments::Segments;
use kr_order::{NoMemory, Node, Packet};
use kr_wire::{addressee, encode};
use std::alloc::Global;
use std::marker::Model;

// A bag never has more packets than this: there is no memory for so many.
const BAG_LIMIT: usize = 1 << 56;

/// The spellings of all packets ever sent, with two marks each.
#[derive(Debug, Drop)]
pub struct Bag {
    spellings: Segments,
    lost: Vec<bool>,
    delivered: Vec<bool>,
    // bit k - 1 is 1 where packet k was lost or delivered
    closed: Vec<u64>,
    bytes: u64,
}

impl Model for Bag {
    ghost use Rattle.net_bag.specs.Sent.{Sent};
    ghost use Rattle.net_bag.specs.Kept.{IsKept};

    ghost Value = { Sent };

    ghost view = { λ bag. record {
      spellings = bag.spellings;
      lost = bag.lost.items;
      delivered = bag.delivered.items;
    } };

    ghost invariant = { λ bag. IsKept bag.spellings bag.lost.items bag.delivered.items bag.closed.items bag.bytes };
}

impl Bag {
    /// The bag before the first packet. It takes no memory.
    pub fn new(alloc: Global) -> Self
        ensures { result ≡ nothing_sent }
    {
        Bag {
            spellings: Segments::new(alloc),
            lost: Vec::new(alloc),
            delivered: Vec::new(alloc),
            closed: Vec::new(alloc),
            bytes: 0,
        }
    }

    /// Puts the packet into the bag, neither lost nor delivered, and answers its number. After `NoMemory` the bag is
    /// as before.
    pub fn send(&mut self, packet: &Packet) -> Result<u64, NoMemory>
        requires { IsPacket packet.now }
        ensures number { IfOk result (λ k. k ≡ length self.old.spellings + 1) }
        ensures ok { IfOk result (λ _. self.new ≡ sent_after self.old (spelling packet.now)) }
        ensures err { OnErr result (self.new ≡ self.old) }
    {
        let count = self.spellings.len();
        if count >= BAG_LIMIT {
            return Err(NoMemory);
        }
        let spelling = encode(*self.lost.allocator(), packet)?;
        self.lost.reserve(1)?;
        self.delivered.reserve(1)?;
        self.closed.reserve(1)?;
        self.spellings.push(&spelling)?;
        self.lost.push_reserved(false);
        self.delivered.push_reserved(false);
        put_word(&mut self.closed, count);
        self.bytes = self.bytes.saturating_add(spelling.len() as u64);
        Ok(count as u64 + 1)
    }

    /// The spelling of packet k; `None` exactly where k is 0 or past the last packet.
    pub fn get(&self, k: u64) -> Option<&[u8]>
        ensures value { option_map (λ bytes. bytes.now) result ≡ spelling_at self.now k }
        ensures spelt { IfSome result (λ bytes. IsSpelling bytes.now) }
    {
        if k == 0 {
            return None;
        }
        self.spellings.get((k - 1) as usize)
    }

    /// Where packet k goes, by its header alone; `None` exactly where k is 0 or past the last packet.
    pub fn to(&self, k: u64) -> Option<Node>
        ensures { IsTo (spelling_at self.now k) result }
    {
        match self.get(k) {
            Some(bytes) => addressee(bytes),
            None => None,
        }
    }

    /// Marks packet k as lost.
    pub fn mark_lost(&mut self, k: u64)
        requires { IsSent self.old k }
        ensures { self.new ≡ record self.old { lost = marked self.old.lost k } }
    {
        let i = (k - 1) as usize;
        set_bit(&mut self.closed, i);
        self.lost[i] = true;
    }

    /// Marks packet k as delivered.
    pub fn mark_delivered(&mut self, k: u64)
        requires { IsSent self.old k }
        ensures { self.new ≡ record self.old { delivered = marked self.old.delivered k } }
    {
        let i = (k - 1) as usize;
        set_bit(&mut self.closed, i);
        self.delivered[i] = true;
    }

    /// Whether packet k was marked as lost.
    pub fn is_lost(&self, k: u64) -> bool
        requires { IsSent self.now k }
        ensures { result ≡ is_marked self.now.lost k }
    {
        self.lost[(k - 1) as usize]
    }

    /// Whether packet k was marked as delivered.
    pub fn is_delivered(&self, k: u64) -> bool
        requires { IsSent self.now k }
        ensures { result ≡ is_marked self.now.delivered k }
    {
        self.delivered[(k - 1) as usize]
    }

    /// The least number of a packet that is greater than `after` and at most `last` and was neither lost nor
    /// delivered; `None` exactly where there is none. What was lost or delivered before costs a step for each 64.
    pub fn next_undelivered(&self, after: u64, last: u64) -> Option<u64>
        ensures some { IfSome result (λ k. IsNextOpen self.now after last k) }
        ensures none { IfNone result (HasNoOpen self.now after last) }
    {
        let count = self.spellings.len() as u64;
        if count <= after {
            return None;
        }
        let Some(i) = first_unset(&self.closed, after as usize) else {
            return None;
        };
        let k = i as u64 + 1;
        if k <= last && k <= count {
            Some(k)
        } else {
            None
        }
    }

    /// How many packets were sent.
    pub fn len(&self) -> u64
        ensures { result ≡ length self.now.spellings }
    {
        self.spellings.len() as u64
    }

    /// How many bytes the spellings have, or the greatest `u64` where they have more.
    pub fn bytes(&self) -> u64
        ensures count { result ≡ min (bytes_of self.now) u64.MAX }
        ensures spelt { All IsSpelling self.now.spellings }
    {
        self.bytes
    }
}
