//! How often each kind of event came.
ghost use Rattle.std.specs.Prelude.{◌≡◌, ◌<◌, replicate};
ghost use Rattle.sn_probe.specs.Tally.{place_of, tally_with_one};

use crate::probe::Probe;
use sn_base::{Answer, Event};
use std::marker::Model;

/// Counts the events by their kind, whatever their answers are: ten numbers, one for each kind but `Input`, in the order of
/// `Event`. Contracts see the list of them.
#[derive(Drop)]
pub struct EventTally {
    counts: [u64; 10],
}

impl Model for EventTally {
    ghost use Rattle.std.specs.Prelude.{◌≡◌, ℕ, List, length};

    ghost Value = { List ℕ };

    ghost view = { λ t. t.counts };

    ghost invariant = { λ t. length t.counts ≡ 10 };
}

impl EventTally {
    pub fn new() -> EventTally
        ensures { result ≡ replicate 10 0 }
    {
        EventTally { counts: [0; 10] }
    }

    /// One that has counted so many of the kind at a place.
    #[cfg(test)]
    pub(crate) fn with_count(place: usize, count: u64) -> EventTally
        requires { place < 10 }
    {
        let mut counts = [0; 10];
        counts[place] = count;
        EventTally { counts }
    }
}

// The place of an event's kind among the counts.
fn place_of(event: &Event) -> Option<usize>
    ensures { result ≡ place_of event.now }
{
    match event {
        Event::Step(_) => Some(0),
        Event::Evict(_, _) => Some(1),
        Event::Edge(_) => Some(2),
        Event::Hop(_) => Some(3),
        Event::Deliver(_) => Some(4),
        Event::Lose(_) => Some(5),
        Event::Kill(_) => Some(6),
        Event::Report(_) => Some(7),
        Event::Validate => Some(8),
        Event::Recover => Some(9),
        Event::Input(_, _) => None,
    }
}

impl Probe for EventTally {
    ghost first = { λ _. replicate 10 0 };

    ghost tally = { λ t. t };

    ghost step = { λ _ tally number event answer. tally_with_one tally (place_of event) };

    fn told(&mut self, _number: u64, event: &Event, _answer: &Answer) {
        if let Some(place) = place_of(event) {
            self.counts[place] = self.counts[place].saturating_add(1);
        }
    }

    fn line(&self, place: usize) -> Option<u64> {
        self.counts.get(place).copied()
    }
}
