//! The statistics of events that are there, counted while they are applied once more.
ghost use Rattle.std.specs.Prelude.{◌≡◌, ◌≤◌, true, [], length, All, IfOk};
ghost use Rattle.sn_base.specs.Config.{config_fits};
ghost use Rattle.sn_base.specs.Events.{event_fits};
ghost use Rattle.sn_base.specs.declared.limits.TheConstants.{EVENTS};
ghost use Rattle.run_statistics.specs.Counted.{Counts};
ghost use Rattle.run_statistics.specs.Statistics.{statistics_of};

use crate::count::Count;
use crate::statistics::Statistics;
use sn_base::{Config, Event, Image, Memory, copy_of};
use sn_machine::Machine;
use std::alloc::Global;

// Applies the events in order and counts each.
fn apply_all(count: &mut Count, machine: &mut Machine, events: &[Event])
    requires fit { All (λ event. event_fits machine.old.config.nodes event ≡ true) events.now }
    requires room { length events.now ≤ machine.old.spare }
    requires counts { Counts count.old machine.old [] }
    ensures { count.new.on ≡ true → count.new.statistics ≡ statistics_of machine.old.image machine.old.config events.now }
{
    'events: for event in events {
        count.apply(machine, *event);
    }
}

// The statistics of events that are there, of a program that is given away.
fn statistics_of_program(
    alloc: Global,
    program: Image,
    config: Config,
    events: &[Event],
) -> Result<Statistics, Memory>
    requires sizes { config_fits config ≡ true }
    requires fit { All (λ event. event_fits config.nodes event ≡ true) events.now }
    requires few { length events.now ≤ EVENTS }
    ensures { IfOk result (λ x. x ≡ statistics_of program config events.now) }
{
    let mut machine = Machine::with_room(alloc, program, config, events.len() as u32)?;
    let mut count = Count::new(alloc, true);
    apply_all(&mut count, &mut machine, events);
    drop(machine);
    count.into_statistics()
}

/// The statistics of a run of events that are there: they are applied to a machine of its own, at the program's start. An error is
/// want of memory.
pub fn statistics_of_run(
    alloc: Global,
    program: &Image,
    config: Config,
    events: &[Event],
) -> Result<Statistics, Memory>
    requires sizes { config_fits config ≡ true }
    requires fit { All (λ event. event_fits config.nodes event ≡ true) events.now }
    requires few { length events.now ≤ EVENTS }
    ensures { IfOk result (λ x. x ≡ statistics_of program.now config events.now) }
{
    let image = copy_of(alloc, program)?;
    statistics_of_program(alloc, image, config, events)
}
