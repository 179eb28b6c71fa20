//! A number for each of some events, the smallest event first.
//!
//! Contracts see an `EventTable` as the list of the events with their numbers, and as how many more fit without
//! memory. An event that is taken out leaves its place empty: a removal costs one look-up. Places are closed up by
//! `reserve` once more are empty than not, so that there are never many more places than events.

ghost use Rattle.std.specs.Prelude.{◌≡◌, ◌<◌, ◌≤◌, ◌+◌, ℕ, true, [], ◌∷◌, ◌++◌, length, Some, IfSome, IfNone, IsSome, OnOk, slice_get, map};
ghost use Rattle.std.specs.Prelude.{vec_len, vec_capacity};
ghost use Rattle.std.specs.List.{All, AllPairs};
ghost use Rattle.dep_graph.specs.Table.{AreRising, number_of, with_number, entries_without};
ghost use Rattle.dep_graph.specs.Places.{entries_in, ArePlacesRising, IsPlaceAt, IsFilledAt, EndsFilled, EndsEmpty};

use kr_order::NoMemory;
use std::alloc::Global;
use std::marker::Model;

// The place of an event; empty once the event was taken out.
#[derive(Clone, Copy, Debug, Drop)]
pub(crate) struct Place {
    pub event: u64,
    pub number: Option<u64>,
}

/// A number for each of some events.
#[derive(Debug, Drop)]
pub struct EventTable {
    // the smallest event first
    places: Vec<Place>,
    // how many places are not empty
    filled: usize,
}

impl Model for EventTable {
    ghost use Rattle.std.specs.Prelude.{◌-◌, vec_len};
    ghost use Rattle.std.specs.Vec.{vec_capacity};
    ghost use Rattle.dep_graph.specs.Table.{TableView};
    ghost use Rattle.dep_graph.specs.Places.{entries_in, ArePlaces};

    ghost Value = { TableView };

    ghost view = { λ t. record {
      entries = entries_in t.places.items;
      spare = vec_capacity t.places - vec_len t.places;
    } };

    ghost invariant = { λ t. ArePlaces t.places.items t.filled };
}

// Whether the place with this index is the event's.
fn is_at(places: &[Place], event: u64, i: usize) -> bool
    ensures { result ≡ true → IsPlaceAt places.now event i }
{
    match places.get(i) {
        Some(place) => place.event == event,
        None => false,
    }
}

// The index of the event's place, if it has one. Where no place was ever closed up, that of an event with number n is
// n - 1, for events are numbered from 1 on: this one is looked at first.
fn place_of(places: &[Place], event: u64) -> Option<usize>
    requires { ArePlacesRising places.now }
    ensures found { IfSome result (IsPlaceAt places.now event) }
    ensures none { IfNone result (All (λ place. place.event ≡ event → ⊥) places.now) }
{
    let guess = event.wrapping_sub(1) as usize;
    if is_at(places, event, guess) {
        return Some(guess);
    }
    match places.binary_search_by_key(&event, |place| place.event) {
        Ok(i) => Some(i),
        Err(_) => None,
    }
}

// The index of the place of an event that has a number.
fn filled_place(places: &[Place], event: u64) -> usize
    requires rising { ArePlacesRising places.now }
    requires some { IsSome (number_of (entries_in places.now) event) }
    ensures { IsFilledAt places.now event result }
{
    place_of(places, event).unwrap()
}

// Takes off the empty places at the end.
fn trim(places: &mut Vec<Place>)
    ensures front { EndsEmpty places.old.items places.new.items }
    ensures last { EndsFilled places.new.items }
    ensures len { vec_len places.new ≤ vec_len places.old }
    ensures capacity { vec_capacity places.new ≡ vec_capacity places.old }
{
    while let Some(place) = places.last() {
        if place.number.is_some() {
            return;
        }
        places.pop();
    }
}

impl EventTable {
    /// The table with no event. It takes no memory.
    pub fn new(alloc: Global) -> Self
        ensures { result.entries ≡ [] }
    {
        EventTable {
            places: Vec::new(alloc),
            filled: 0,
        }
    }

    // Closes up the places.
    fn close(&mut self)
        ensures entries { self.new.entries ≡ self.old.entries }
        ensures spare { self.old.spare ≤ self.new.spare }
    {
        self.places.retain(|place| place.number.is_some());
    }

    /// Makes room for so many more events.
    pub fn reserve(&mut self, n: usize) -> Result<(), NoMemory>
        ensures spare { OnOk result (n ≤ self.new.spare) }
        ensures keeps_spare { self.old.spare ≤ self.new.spare }
        ensures entries { self.new.entries ≡ self.old.entries }
    {
        if self.filled < self.places.len() / 2 {
            self.close();
        }
        self.places.reserve(n)?;
        Ok(())
    }

    /// Takes in an event, with its number. It takes no memory.
    pub fn push(&mut self, event: u64, number: u64)
        requires greatest { All (λ entry. entry.0 < event) self.old.entries }
        requires room { 1 ≤ self.old.spare }
        ensures entries { self.new.entries ≡ self.old.entries ++ (event, number) ∷ [] }
        ensures spare { self.old.spare ≤ self.new.spare + 1 }
    {
        trim(&mut self.places);
        self.places.push_reserved(Place {
            event,
            number: Some(number),
        });
        self.filled += 1;
    }

    /// The number of the event; `None` where it has none.
    pub fn get(&self, event: u64) -> Option<u64>
        ensures { result ≡ number_of self.now.entries event }
    {
        match place_of(self.places.as_slice(), event) {
            Some(i) => self.places[i].number,
            None => None,
        }
    }

    /// Gives the event another number.
    pub fn set(&mut self, event: u64, number: u64)
        requires { IsSome (number_of self.old.entries event) }
        ensures entries { self.new.entries ≡ with_number self.old.entries event number }
        ensures spare { self.new.spare ≡ self.old.spare }
    {
        let i = filled_place(self.places.as_slice(), event);
        self.places[i].number = Some(number);
    }

    /// Takes the event out.
    pub fn remove(&mut self, event: u64)
        requires { IsSome (number_of self.old.entries event) }
        ensures entries { self.new.entries ≡ entries_without self.old.entries event }
        ensures spare { self.new.spare ≡ self.old.spare }
    {
        let i = filled_place(self.places.as_slice(), event);
        self.places[i].number = None;
        self.filled -= 1;
    }

    /// How many events there are.
    pub fn len(&self) -> usize
        ensures { result ≡ length self.now.entries }
    {
        self.filled
    }

    /// A proof step, which does nothing when it runs: in every table the events rise.
    pub fn recall_rising(&self)
        ensures { AreRising self.now.entries }
    {
        let _ = &self.places;
    }
}
