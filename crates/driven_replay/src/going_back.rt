//! The machine is put where the first of the events that are done led it.
ghost use Rattle.std.specs.Prelude.{◌≡◌, ◌+◌, ◌≤◌, ◌<◌, true, take, length, OnOk, OnErr, IfOk};
ghost use Rattle.sn_base.specs.Config.{config_fits};
ghost use Rattle.sn_base.specs.Events.{event_fits};
ghost use Rattle.sn_machine.specs.Machine.{next_of};
ghost use Rattle.consistent_cuts.specs.Runs.{AllFit};
ghost use Rattle.due_events.specs.Numbers.{numbers_after};
ghost use Rattle.due_events.specs.Runs.{numbers_along};
ghost use Rattle.script_replay.specs.Played.{after_event};
ghost use Rattle.driven_replay.specs.Answered.{fresh_machine, driver_of, after_events};
ghost use Rattle.sn_base.specs.declared.limits.TheConstants.{EVENTS};

use crate::kept::Kept;
use crate::looking::usual_rules;
use sn_base::{Config, EVENTS, Event, Image, Memory, copy_of};
use sn_driver::Driver;
use sn_machine::Machine;
use std::alloc::Global;

// Applies an event, and the driver counts it.
fn apply(machine: &mut Machine, driver: &mut Driver, event: &Event)
    requires fits { event_fits machine.old.config.nodes event.now ≡ true }
    requires room { 1 ≤ machine.old.spare }
    requires life { driver.old.numbers.done < 4000000000 }
    ensures next { machine.new ≡ after_event machine.old event.now }
    ensures counted { driver.new
        ≡ record driver.old { numbers = numbers_after driver.old.numbers event.now (next_of machine.old event.now).answer } }
    ensures one { driver.new.numbers.done ≤ driver.old.numbers.done + 1 }
{
    let answer = machine.apply(*event);
    driver.note(event, &answer);
}

fn apply_all(machine: &mut Machine, driver: &mut Driver, events: &[Event])
    requires fit { AllFit machine.old.config.nodes events.now }
    requires room { length events.now ≤ machine.old.spare }
    requires life { driver.old.numbers.done + length events.now ≤ 4000000000 }
    ensures next { machine.new ≡ after_events machine.old events.now }
    ensures counted { driver.new ≡ record driver.old {
      numbers = numbers_along machine.old.image machine.old.config machine.old.state driver.old.numbers events.now;
    } }
{
    'events: for event in events {
        apply(machine, driver, event);
    }
}

/// A machine, and a driver that has counted its events.
#[derive(Drop)]
struct Led {
    machine: Machine,
    driver: Driver,
}

// A machine that these events led from the program's start.
fn led_by(alloc: Global, program: &Image, config: Config, events: &[Event]) -> Result<Led, Memory>
    requires sizes { config_fits config ≡ true }
    requires fit { AllFit config.nodes events.now }
    requires few { length events.now ≤ EVENTS }
    ensures machine { IfOk result (λ led. led.machine ≡ after_events (fresh_machine program.now config) events.now) }
    ensures driver { IfOk result (λ led. led.driver ≡ driver_of (fresh_machine program.now config) events.now) }
{
    let program = copy_of(alloc, program)?;
    let mut machine = Machine::with_room(alloc, program, config, EVENTS as u32)?;
    let mut driver = Driver::new(usual_rules(), config.nodes);
    apply_all(&mut machine, &mut driver, events);
    Ok(Led { machine, driver })
}

/// Goes back to the first so many events. Where memory is lacking, all stays as it was.
pub(crate) fn go_back(
    alloc: Global,
    machine: &mut Machine,
    driver: &mut Driver,
    kept: &mut Kept,
    events: u32,
) -> Result<(), Memory>
    requires there { events ≤ length kept.old }
    requires few { length kept.old ≤ EVENTS }
    requires fit { AllFit machine.old.config.nodes kept.old }
    ensures machine { OnOk result (machine.new
        ≡ after_events (fresh_machine machine.old.image machine.old.config) (take events kept.old)) }
    ensures driver { OnOk result (driver.new ≡ driver_of machine.old (take events kept.old)) }
    ensures kept { OnOk result (kept.new ≡ take events kept.old) }
    ensures lacking { OnErr result ((machine.new ≡ machine.old) × (driver.new ≡ driver.old) × (kept.new ≡ kept.old)) }
{
    let config = *machine.config();
    let led = led_by(alloc, machine.image(), config, kept.first(events as usize))?;
    let Led {
        machine: anew,
        driver: counted,
    } = led;
    *machine = anew;
    *driver = counted;
    kept.keep(events as usize);
    Ok(())
}
