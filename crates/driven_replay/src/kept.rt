//! The events that are done, kept for a line that goes back.
ghost use Rattle.std.specs.Prelude.{◌≡◌, ◌<◌, ◌≤◌, [], ◌∷◌, ◌++◌, take, length, IfOk};
ghost use Rattle.sn_base.specs.declared.limits.TheConstants.{EVENTS};

use sn_base::{EVENTS, Event, Memory};
use std::alloc::Global;
use std::marker::Model;

/// The events that are done, in order. It has the memory of a million from the start. Contracts see the events.
#[derive(Drop)]
pub struct Kept {
    events: Vec<Event>,
}

impl Model for Kept {
    ghost use Rattle.std.specs.Prelude.{List, ◌≤◌, vec_capacity};
    ghost use Rattle.sn_base.specs.declared.event.Event.{Event};
    ghost use Rattle.sn_base.specs.declared.limits.TheConstants.{EVENTS};

    ghost Value = { List Event };

    ghost view = { λ k. k.events.items };

    ghost invariant = { λ k. EVENTS ≤ vec_capacity k.events };
}

impl Kept {
    pub(crate) fn new(alloc: Global) -> Result<Kept, Memory>
        ensures { IfOk result (λ kept. kept ≡ []) }
    {
        let events = Vec::with_capacity(alloc, EVENTS as usize)?;
        Ok(Kept { events })
    }

    /// The first so many.
    pub(crate) fn first(&self, count: usize) -> &[Event]
        requires { count ≤ length self.now }
        ensures { result.now ≡ take count self.now }
    {
        &self.events[..count]
    }

    /// One more is done.
    pub(crate) fn add(&mut self, event: Event)
        requires { length self.old < EVENTS }
        ensures { self.new ≡ self.old ++ event ∷ [] }
    {
        self.events.push(event).unwrap();
    }

    /// All but the first so many are taken back.
    pub(crate) fn keep(&mut self, count: usize)
        ensures { self.new ≡ take count self.old }
    {
        self.events.truncate(count);
    }
}
