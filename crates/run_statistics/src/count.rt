//! The count of a run's statistics, which rides along while the run's events are applied.
ghost use Rattle.std.specs.Prelude.{◌≡◌, ◌≤◌, ℕ, true, List, [], ◌∷◌, ◌++◌, IfOk, OnOk};
ghost use Rattle.sn_base.specs.Config.{config_fits};
ghost use Rattle.sn_base.specs.Events.{event_fits};
ghost use Rattle.sn_base.specs.Image.{ImageData};
ghost use Rattle.sn_base.specs.declared.config.Config.{Config};
ghost use Rattle.sn_base.specs.declared.event.Event.{Event};
ghost use Rattle.sn_machine.specs.Machine.{IsApplied, machine_with_room};
ghost use Rattle.run_statistics.specs.Counted.{Counts};

use crate::numbers::Numbers;
use crate::owned::OwnedBefore;
use crate::statistics::{Before, Statistics};
use sn_base::{Answer, Event, Memory};
use sn_machine::Machine;
use std::alloc::Global;

/// The statistics of a run so far; how many blocks each node's cache owns now; and whether it still counts, which it doesn't where
/// nobody asked it to, and no more once memory was lacking for it.
pub struct Count {
    pub statistics: Statistics,
    pub owned: Numbers,
    pub on: bool,
}

// Written here, so that it is proved here: a derived one is proved anew in each crate that lets a count go.
impl Drop for Count {
    fn drop(self) {
        let Count {
            statistics: _,
            owned: _,
            on: _,
        } = self;
    }
}

impl Count {
    /// Of a machine to which no event was applied.
    pub fn new(alloc: Global, on: bool) -> Count
        ensures on { result.on ≡ on }
        ensures counts { (image : ImageData) (config : Config) (room : ℕ) → config_fits config ≡ true →
            Counts result (machine_with_room image config room) [] }
    {
        let statistics = Statistics::new(alloc);
        let owned = Numbers::new();
        Count {
            statistics,
            owned,
            on,
        }
    }

    /// Applies an event to the machine, and counts it and how many blocks each node's cache owns then.
    pub fn apply(&mut self, machine: &mut Machine, event: Event) -> Answer
        requires fits { event_fits machine.old.config.nodes event ≡ true }
        requires room { 1 ≤ machine.old.spare }
        requires counts { (events : List Event) × Counts self.old machine.old events }
        ensures applied { IsApplied machine.old machine.new event result }
        ensures counts { (events : List Event) → Counts self.old machine.old events →
            Counts self.new machine.new (events ++ event ∷ []) }
    {
        if !self.on {
            return machine.apply(event);
        }
        let before = Before::of(machine);
        let had = OwnedBefore::of(machine, &self.owned, &event);
        let answer = machine.apply(event);
        had.follow(&mut self.owned, &answer, machine);
        let added = self
            .statistics
            .add(&before, &event, &answer, &self.owned, &had.reach, machine);
        self.on = added.is_ok();
        answer
    }

    /// What it counted. An error is want of memory, while it counted.
    pub fn into_statistics(self) -> Result<Statistics, Memory>
        ensures on { OnOk result (self.on ≡ true) }
        ensures counted { IfOk result (λ x. x ≡ self.statistics) }
    {
        let Count {
            statistics,
            owned: _,
            on,
        } = self;
        if on {
            Ok(statistics)
        } else {
            drop(statistics);
            Err(Memory)
        }
    }
}
