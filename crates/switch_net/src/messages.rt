//! The messages in flight, each found by its number.
//!
//! They stand in one list in the order in which they were sent, with room for all from the start. So their numbers ascend,
//! and a binary search finds one without a hash. Few are in flight at a time: where one goes, those after it move up.
ghost use Rattle.std.specs.Prelude.{◌≡◌, ◌<◌, ◌≤◌, ◌++◌, ℕ, [], ◌∷◌, Some, length, slice_get, IfOk, vec_capacity, ◌==◌};
ghost use Rattle.std.specs.List.{position};
ghost use Rattle.std.specs.Option.{option_copied};
ghost use Rattle.switch_net.specs.Net.{AreNumbered, find_flight, without, outside, flights_with_move};

use crate::flight::Flight;
use sn_base::{MESSAGES, Memory, MsgId, SwitchId};
use std::alloc::Global;
use std::marker::Model;

/// Contracts see the list of messages, in the order in which they were sent.
#[derive(Drop)]
pub struct Messages {
    flights: Vec<Flight>,
}

impl Model for Messages {
    ghost use Rattle.std.specs.Prelude.{List, ◌≤◌, vec_capacity};
    ghost use Rattle.switch_net.specs.declared.flight.Flight.{Flight};

    ghost Value = { List Flight };

    ghost view = { λ m. m.flights.items };

    ghost invariant = { λ m. 1024 ≤ vec_capacity m.flights };
}

/// Puts a value last in a list that has room.
fn keep<T: Copy>(list: &mut Vec<T>, value: &T)
    requires { length list.old.items < vec_capacity list.old }
    ensures last { list.new.items ≡ list.old.items ++ value.now ∷ [] }
    ensures room { vec_capacity list.old ≤ vec_capacity list.new }
{
    list.push(*value).unwrap();
}

impl Messages {
    /// None yet, and room for all.
    pub fn new(alloc: Global) -> Result<Messages, Memory>
        ensures { IfOk result (λ m. m ≡ []) }
    {
        let flights = Vec::with_capacity(alloc, MESSAGES)?;
        Ok(Messages { flights })
    }

    pub fn len(&self) -> usize
        ensures { result ≡ length self.now }
    {
        self.flights.len()
    }

    pub fn at(&self, place: usize) -> &Flight
        requires { place < length self.now }
        ensures { slice_get self.now place ≡ Some result.now }
    {
        &self.flights[place]
    }

    /// The place of a number.
    fn place_of(&self, id: MsgId) -> Option<usize>
        requires { (bound : ℕ) × AreNumbered 1 self.now bound }
        ensures { result ≡ position (λ f. f.message.id == id) self.now }
    {
        self.flights
            .binary_search_by_key(&id, |flight| flight.message.id)
            .ok()
    }

    pub fn find(&self, id: MsgId) -> Option<&Flight>
        requires { (bound : ℕ) × AreNumbered 1 self.now bound }
        ensures { option_copied result ≡ find_flight self.now id }
    {
        let place = self.place_of(id)?;
        Some(&self.flights[place])
    }

    /// Adds a message.
    pub fn push(&mut self, flight: &Flight)
        requires room { length self.old < 1024 }
        ensures { self.new ≡ self.old ++ flight.now ∷ [] }
    {
        keep(&mut self.flights, flight);
    }

    /// Takes a message out, where it is there.
    pub fn remove(&mut self, id: MsgId) -> Option<Flight>
        requires { (bound : ℕ) × AreNumbered 1 self.old bound }
        ensures removed { result ≡ find_flight self.old id }
        ensures others { self.new ≡ without self.old id }
    {
        let place = self.place_of(id)?;
        Some(self.flights.remove(place))
    }

    pub fn put(&mut self, id: MsgId, switch: SwitchId)
        requires { (bound : ℕ) × AreNumbered 1 self.old bound }
        ensures { self.new ≡ flights_with_move self.old id switch }
    {
        if let Some(place) = self.place_of(id) {
            self.flights[place].at = switch;
        }
    }

    /// Drops the messages in a switch.
    pub fn drop_in(&mut self, switch: SwitchId)
        ensures { self.new ≡ outside self.old switch }
    {
        self.flights.retain(|flight| flight.at != switch);
    }

    pub fn clear(&mut self)
        ensures { self.new ≡ [] }
    {
        self.flights.clear();
    }
}
