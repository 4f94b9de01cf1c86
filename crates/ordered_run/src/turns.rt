//! The turns of a run, and what is put to the console of each.
ghost use Rattle.std.specs.Prelude.{◌≡◌, ◌<◌, ◌≤◌, Bool, true, List, [], ◌∷◌, ◌++◌, Some, None, length, take, drop, IfOk, IfErr, IfSome, IsNone, OnOk, OnErr};
ghost use Rattle.sn_base.specs.Events.{event_fits};
ghost use Rattle.sn_base.specs.declared.event.Event.{Event};
ghost use Rattle.sn_machine.specs.Machine.{IsApplied};
ghost use Rattle.due_events.specs.Numbers.{numbers_after};
ghost use Rattle.sn_driver.specs.Turns.{due_at, IsLater};
ghost use Rattle.sn_io.specs.Outside.{Rose};
ghost use Rattle.sn_console.specs.Handed.{IsHandedOn, IsBegun};
ghost use Rattle.run_journals.specs.Journal.{events_of};
ghost use Rattle.run_statistics.specs.Counted.{Counts};
ghost use Rattle.node_run.specs.Shared.{refusal_of, Did};
ghost use Rattle.ordered_run.specs.Stands.{Stands, IsReady, IsSameRun, IsNext, IsRefused, EndsTurns};

use crate::course::Course;
use node_run::shared_machine::Finish;
use run_statistics::Count;
use sink_pieces::put_console;
use sn_base::{Answer, Event};
use sn_driver::{Driver, Turn};
use sn_io::{Failed, Sink};
use sn_machine::Machine;
use turn_orders::{draw, note};

// Why nothing is due: the machine is over, or nodes are cut off.
fn cause(machine: &mut Machine, driver: &mut Driver, worker: u32, pick: u32) -> Finish
    requires nodes { machine.old.config.nodes ≡ driver.old.nodes }
    requires worker { worker < driver.old.nodes }
    requires life { driver.old.numbers.done < 4000000000 }
    requires room { 1 ≤ machine.old.spare }
    requires none { due_at driver.old machine.old worker pick ≡ None }
    ensures same { (driver.new ≡ driver.old) × (machine.new ≡ machine.old) }
    ensures cause { (spent : Bool) → refusal_of driver.old machine.old spent ≡ Some result }
{
    match driver.turn(machine, worker, pick) {
        Turn::Over => Finish::Over,
        Turn::CutOff(first, second) => Finish::CutOff(first, second),
        Turn::Did(_, _) => unreachable!(),
    }
}

// Applies an event, and counts it for the driver and for the statistics.
fn apply(machine: &mut Machine, driver: &mut Driver, count: &mut Count, event: &Event) -> Answer
    requires fits { event_fits machine.old.config.nodes event.now ≡ true }
    requires life { driver.old.numbers.done < 4000000000 }
    requires room { 1 ≤ machine.old.spare }
    requires counts { (events : List Event) × Counts count.old machine.old events }
    ensures applied { IsApplied machine.old machine.new event.now result }
    ensures noted { driver.new ≡ record driver.old { numbers = numbers_after driver.old.numbers event.now result } }
    ensures later { IsLater driver.old machine.old driver.new machine.new }
    ensures counts { (events : List Event) → Counts count.old machine.old events →
        Counts count.new machine.new (events ++ event.now ∷ []) }
{
    let answer = count.apply(machine, *event);
    driver.note(event, &answer);
    answer
}

// One turn of the driver, where the run goes on, which is counted: nothing is done where the budget is spent.
fn drive(
    machine: &mut Machine,
    driver: &mut Driver,
    count: &mut Count,
    worker: u32,
    pick: u32,
    spent: bool,
) -> Result<(Event, Answer), Finish>
    requires nodes { machine.old.config.nodes ≡ driver.old.nodes }
    requires worker { worker < driver.old.nodes }
    requires life { driver.old.numbers.done < 4000000000 }
    requires room { 1 ≤ machine.old.spare }
    requires counts { (events : List Event) × Counts count.old machine.old events }
    ensures ok { IfOk result (λ did. Did driver.old machine.old worker pick spent did.0 did.1 driver.new machine.new) }
    ensures counts { (events : List Event) → Counts count.old machine.old events →
        IfOk result (λ did. Counts count.new machine.new (events ++ did.0 ∷ [])) }
    ensures err { IfErr result
        (λ finish. (driver.new ≡ driver.old) × (machine.new ≡ machine.old) × (refusal_of driver.old machine.old spent ≡ Some finish)) }
    ensures idle { OnErr result (count.new ≡ count.old) }
{
    let Some(event) = driver.due(machine, worker, pick) else {
        return Err(cause(machine, driver, worker, pick));
    };
    if spent {
        return Err(Finish::Budget);
    }
    let answer = apply(machine, driver, count, &event);
    Ok((event, answer))
}

// One turn of the worker whose it is, which is counted, or why there is none any more.
fn turn(course: &mut Course, count: &mut Count) -> Option<Finish>
    requires stands { Stands course.old }
    requires ready { IsReady course.old }
    requires counts { Counts count.old course.old.machine (events_of course.old.journal.items) }
    ensures on { IsNone result → IsNext course.old course.new }
    ensures stop { IfSome result (λ finish. IsRefused course.old course.new finish) }
    ensures counts { Counts count.new course.new.machine (events_of course.new.journal.items) }
{
    let Course {
        machine,
        driver,
        scheduler,
        generators,
        journal,
        answers,
        seed: _,
        budget,
    } = course;
    let spent = journal.len() >= *budget as usize;
    let worker = scheduler.next();
    let pick = draw(generators, worker);
    match drive(machine, driver, count, worker, pick, spent) {
        Ok((event, answer)) => {
            note(journal, answers, worker, event, answer);
            None
        }
        Err(finish) => Some(finish),
    }
}

fn beyond(released: &[u8], had: usize) -> &[u8]
    requires { had ≤ length released.now }
    ensures { result.now ≡ drop had released.now }
{
    &released[had..]
}

// Puts to the console what is released beyond so many bytes.
fn put_new<C: Sink>(machine: &Machine, had: usize, console: &mut C) -> Result<(), Failed>
    requires { had ≤ length machine.now.state.released }
    ensures ok { OnOk result (IsHandedOn (take had machine.now.state.released) machine.now.state.released
        (C.written console.old) (C.written console.new)) }
    ensures err { OnErr result (IsBegun (take had machine.now.state.released) machine.now.state.released
        (C.written console.old) (C.written console.new)) }
    ensures later { C.faults console.old ≤ C.faults console.new }
    ensures cause { OnErr result (Rose (C.faults console.old) (C.faults console.new)) }
{
    let view = machine.recovered();
    put_console(console, beyond(view.released(), had))
}

/// Turns until there is none any more, each counted, and with what it released put to the console. A console that fails stops them.
pub(crate) fn make_turns<C: Sink>(course: &mut Course, count: &mut Count, console: &mut C) -> Finish
    requires stands { Stands course.old }
    requires ready { IsReady course.old }
    requires counts { Counts count.old course.old.machine (events_of course.old.journal.items) }
    ensures stands { Stands course.new }
    ensures same { IsSameRun course.old course.new }
    ensures ends { EndsTurns course.old course.new result (C.written console.old) (C.written console.new)
        (C.faults console.old) (C.faults console.new) }
    ensures counts { Counts count.new course.new.machine (events_of course.new.journal.items) }
    ensures later { C.faults console.old ≤ C.faults console.new }
{
    'turns: loop {
        let had = course.machine.recovered().released().len();
        match turn(course, count) {
            None => {}
            Some(finish) => return finish,
        }
        match put_new(&course.machine, had, console) {
            Ok(()) => {}
            Err(_) => return Finish::Stopped,
        }
    }
}
