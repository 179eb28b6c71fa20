//! Lists of bytes that lie one behind the other in segments.

ghost use Rattle.std.specs.Prelude.{◌≡◌, ◌≤◌, ◌<◌, ◌^◌, [], ◌∷◌, ◌++◌, length, map, slice_get, slice_index_or, option_map, OnOk, OnErr};
ghost use Rattle.net_bag.specs.Segments.{bytes_at, IsWithin, IsBegun};

use kr_order::NoMemory;
use std::alloc::Global;
use std::marker::Model;
use std::mem;

// So many bytes a segment takes.
const SEGMENT: usize = 1 << 20;

// There are never more segments than this, and no list of bytes is longer: there is no memory for so much.
const LIMIT: usize = u32::MAX as usize;

// Where a list of bytes lies: in which segment, from which of its bytes on, and how many.
#[derive(Clone, Copy, Debug)]
pub(crate) struct Place {
    segment: u32,
    start: u32,
    len: u32,
}

/// Lists of bytes, in the order in which they were put there.
#[derive(Debug, Drop)]
pub(crate) struct Segments {
    full: Vec<Vec<u8>>,
    // the last segment, in which the next list is put if it has room
    last: Vec<u8>,
    places: Vec<Place>,
}

impl Model for Segments {
    ghost use Rattle.std.specs.Prelude.{◌++◌, ◌∷◌, [], List, ℕ, map};
    ghost use Rattle.std.specs.Coded.{coded_list, coded_ℕ};
    ghost use Rattle.net_bag.specs.Segments.{bytes_at, IsPlacedIn};

    ghost Value = { List (List ℕ) };

    ghost coded = { coded_list (coded_list coded_ℕ) };

    ghost view = { λ s. map (bytes_at (map (λ bytes. bytes.items) s.full.items ++ s.last.items ∷ [])) s.places.items };

    ghost invariant = { λ s. IsPlacedIn (map (λ bytes. bytes.items) s.full.items) s.last.items s.places.items };
}

// Begins a segment where the last one has no room for so many bytes.
fn begin(full: &mut Vec<Vec<u8>>, last: &mut Vec<u8>, len: usize) -> Result<(), NoMemory>
    ensures ok { OnOk result (IsBegun (map (λ bytes. bytes.items) full.old.items) last.old.items (map (λ bytes. bytes.items) full.new.items) last.new.items len) }
    ensures full { OnErr result (full.new.items ≡ full.old.items) }
    ensures last { OnErr result (last.new.items ≡ last.old.items) }
{
    if len <= SEGMENT.saturating_sub(last.len()) {
        return Ok(());
    }
    full.reserve(1)?;
    let next = Vec::with_capacity(*last.allocator(), SEGMENT)?;
    full.push_reserved(mem::replace(last, next));
    Ok(())
}

// The bytes of the segment at index i.
fn segment_at<'a>(full: &'a [Vec<u8>], last: &'a [u8], i: usize) -> &'a [u8]
    requires { i ≤ length full.now }
    ensures { result.now ≡ slice_index_or (map (λ bytes. bytes.items) full.now ++ last.now ∷ []) i [] }
{
    match full.get(i) {
        Some(segment) => segment.as_slice(),
        None => last,
    }
}

// The bytes that lie there.
fn bytes_at<'a>(full: &'a [Vec<u8>], last: &'a [u8], place: Place) -> &'a [u8]
    requires { IsWithin (map (λ bytes. bytes.items) full.now ++ last.now ∷ []) place }
    ensures { result.now ≡ bytes_at (map (λ bytes. bytes.items) full.now ++ last.now ∷ []) place }
{
    let segment = segment_at(full, last, place.segment as usize);
    let from = segment.split_at(place.start as usize).1;
    from.split_at(place.len as usize).0
}

impl Segments {
    /// No lists. It takes no memory.
    pub(crate) fn new(alloc: Global) -> Self
        ensures { result ≡ [] }
    {
        Segments {
            full: Vec::new(alloc),
            last: Vec::new(alloc),
            places: Vec::new(alloc),
        }
    }

    /// Puts the bytes behind those that are there. After `NoMemory` the lists are as before.
    pub(crate) fn push(&mut self, bytes: &[u8]) -> Result<(), NoMemory>
        ensures ok { OnOk result (self.new ≡ self.old ++ bytes.now ∷ []) }
        ensures err { OnErr result (self.new ≡ self.old) }
    {
        if bytes.len() > LIMIT || self.full.len() >= LIMIT {
            return Err(NoMemory);
        }
        self.places.reserve(1)?;
        begin(&mut self.full, &mut self.last, bytes.len())?;
        let place = Place {
            segment: self.full.len() as u32,
            start: self.last.len() as u32,
            len: bytes.len() as u32,
        };
        self.last.extend_from_slice(bytes)?;
        self.places.push_reserved(place);
        Ok(())
    }

    /// The list at index i, counted from 0; `None` exactly where there are no more than so many.
    pub(crate) fn get(&self, i: usize) -> Option<&[u8]>
        ensures { option_map (λ bytes. bytes.now) result ≡ slice_get self.now i }
    {
        match self.places.get(i) {
            Some(place) => Some(bytes_at(&self.full, &self.last, *place)),
            None => None,
        }
    }

    /// How many lists there are.
    pub(crate) fn len(&self) -> usize
        ensures { result ≡ length self.now }
    {
        self.places.len()
    }
}
