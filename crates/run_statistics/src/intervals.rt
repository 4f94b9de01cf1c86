//! How long an interval that has ended waits for its validation.
ghost use Rattle.std.specs.Prelude.{◌≡◌, [], ◌∷◌, ◌++◌, drop, slice_get, OnOk, OnErr};
ghost use Rattle.run_statistics.specs.Intervals.{no_intervals, are_in, with_validation, intervals_with};

use crate::spread::Spread;
use sn_base::{Answer, Interval, Memory, NodeId};
use sn_machine::Machine;
use std::alloc::Global;
use std::marker::Model;

/// A moment of a run: the number of an event, and how many instructions had retired then.
#[derive(Clone, Copy)]
pub struct Moment {
    pub event: u64,
    pub retired: u64,
}

/// Moments in their order. Contracts see the list of them.
#[derive(Drop)]
pub struct Moments {
    moments: Vec<Moment>,
}

impl Model for Moments {
    ghost use Rattle.std.specs.Prelude.{List};
    ghost use Rattle.run_statistics.specs.declared.intervals.Moment.{Moment};

    ghost Value = { List Moment };

    ghost view = { λ m. m.moments.items };
}

impl Moments {
    pub fn new(alloc: Global) -> Moments
        ensures { result ≡ [] }
    {
        Moments {
            moments: Vec::new(alloc),
        }
    }

    pub fn push(&mut self, moment: Moment) -> Result<(), Memory>
        ensures ok { OnOk result (self.new ≡ self.old ++ moment ∷ []) }
        ensures err { OnErr result (self.new ≡ self.old) }
    {
        self.moments.push(moment)?;
        Ok(())
    }

    /// The first goes, if there is one.
    pub fn take_first(&mut self) -> Option<Moment>
        ensures first { result ≡ slice_get self.old 0 }
        ensures others { self.new ≡ drop 1 self.old }
    {
        if self.moments.is_empty() {
            return None;
        }
        Some(self.moments.remove(0))
    }

    pub fn clear(&mut self)
        ensures { self.new ≡ [] }
    {
        self.moments.clear();
    }
}

/// When the intervals ended that have ended in all nodes and aren't validated; and for how many events and instructions each that
/// was validated had waited.
#[derive(Drop)]
pub struct IntervalStatistics {
    pub ended: Moments,
    pub events: Spread,
    pub instructions: Spread,
}

/// Whether all nodes are in this interval or in a later one.
fn are_in(k: Interval, machine: &Machine) -> bool
    ensures { result ≡ are_in k machine.now.state.fabric machine.now.config.nodes }
{
    let mut all = true;
    'nodes: for number in 0..machine.config().nodes {
        let now = machine.now(NodeId::numbered(number));
        all = all && k <= now;
    }
    all
}

impl IntervalStatistics {
    pub fn new(alloc: Global) -> IntervalStatistics
        ensures { result ≡ no_intervals }
    {
        IntervalStatistics {
            ended: Moments::new(alloc),
            events: Spread::new(),
            instructions: Spread::new(),
        }
    }

    fn validate(&mut self, at: Moment)
        ensures { self.new ≡ with_validation self.old at self.old.ended }
    {
        if let Some(end) = self.ended.take_first() {
            self.events.add(at.event.saturating_sub(end.event));
            self.instructions
                .add(at.retired.saturating_sub(end.retired));
        }
    }

    /// After an event at this moment, which had this answer and left this machine.
    pub fn add(&mut self, at: Moment, answer: &Answer, machine: &Machine) -> Result<(), Memory>
        ensures { OnOk result (self.new ≡ intervals_with self.old at answer.now machine.now.config.nodes machine.now.state.fabric) }
    {
        match answer {
            Answer::Edged(k) => {
                if are_in(*k, machine) {
                    return self.ended.push(at);
                }
            }
            Answer::Validated(_) => self.validate(at),
            Answer::Recovered(_) => self.ended.clear(),
            _ => {}
        }
        Ok(())
    }
}
