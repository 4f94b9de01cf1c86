//! One line is answered.
ghost use Rattle.std.specs.Prelude.{◌≡◌, ℕ, List, [], ◌∷◌, ◌+◌, ◌<◌, ◌≤◌, ◌++◌, ◌⊎◌, true, take, Option, OnOk, OnErr, Err, length};
ghost use Rattle.sn_base.specs.Events.{event_fits};
ghost use Rattle.sn_io.specs.Outside.{Rose};
ghost use Rattle.sink_pieces.specs.Pieces.{Report, ends, after, Breaks};
ghost use Rattle.sn_machine.specs.Machine.{next_of};
ghost use Rattle.sn_probe.specs.Probes.{meters_in};
ghost use Rattle.sn_text.specs.Text.{event_line};
ghost use Rattle.script_replay.specs.Played.{IsWatchable, after_event, told_next};
ghost use Rattle.due_events.specs.Numbers.{numbers_after};
ghost use Rattle.driven_replay.specs.Pieces.{watch_of, ShowsStates};
ghost use Rattle.driven_replay.specs.Looks.{HasItsNode, look_line};
ghost use Rattle.driven_replay.specs.Said.{IsThere, SaidFits, WantsMemory, done_after, event_in};
ghost use Rattle.driven_replay.specs.Refusals.{refusal_line};
ghost use Rattle.driven_replay.specs.Marks.{mark_line, back_answer};
ghost use Rattle.driven_replay.specs.Dues.{usual_rules};
ghost use Rattle.driven_replay.specs.Answered.{event_now, answer_now, machine_back, driver_back, machine_after, driver_after, told_after};
ghost use Rattle.consistent_cuts.specs.Runs.{AllFit};
ghost use Rattle.sn_base.specs.declared.limits.TheConstants.{EVENTS};

use crate::going_back::go_back;
use crate::job::{DriveShowing, Look, Said};
use crate::kept::Kept;
use crate::looking::write_look;
use crate::marks::{write_answer, write_mark};
use crate::putting::{PutFault, put_turn};
use crate::refusals::write_refusal;
use sink_pieces::put_report;
use sn_base::Event;
use sn_driver::Driver;
use sn_io::{Failed, Sink};
use sn_machine::Machine;
use sn_probe::ProbeSet;
use sn_text::{Fault, Line};
use std::alloc::Global;

// Puts the line that an event would get, and applies nothing.
fn put_foreseen<R: Sink>(
    machine: &Machine,
    line: &mut Line,
    event: &Event,
    report: &mut R,
) -> Result<(), Failed>
    requires fits { event_fits machine.now.config.nodes event.now ≡ true }
    ensures ok { OnOk result ((c : Option (List ℕ)) → ends c (R.written report.new) ≡ after (ends c (R.written report.old))
        (Report (event_line (machine.now.applied + 1) event.now (next_of machine.now event.now).answer) ∷ [])) }
    ensures err { OnErr result ((c : Option (List ℕ)) →
        Breaks (Report (event_line (machine.now.applied + 1) event.now (next_of machine.now event.now).answer) ∷ [])
        (ends c (R.written report.old)) (ends c (R.written report.new))) }
    ensures later { R.faults report.old ≤ R.faults report.new }
    ensures cause { OnErr result (Rose (R.faults report.old) (R.faults report.new)) }
{
    let answer = machine.foresee(*event);
    line.clear();
    line.event(u64::from(machine.applied()) + 1, event, &answer);
    put_report(report, line.bytes())
}

// Puts why a line is refused.
fn put_refusal<R: Sink>(
    line: &mut Line,
    number: u64,
    fault: Fault,
    report: &mut R,
) -> Result<(), Failed>
    ensures ok { OnOk result ((c : Option (List ℕ)) → ends c (R.written report.new)
        ≡ after (ends c (R.written report.old)) (Report (refusal_line number fault) ∷ [])) }
    ensures err { OnErr result ((c : Option (List ℕ)) → Breaks (Report (refusal_line number fault) ∷ [])
        (ends c (R.written report.old)) (ends c (R.written report.new))) }
    ensures later { R.faults report.old ≤ R.faults report.new }
    ensures cause { OnErr result (Rose (R.faults report.old) (R.faults report.new)) }
{
    write_refusal(line, number, fault);
    put_report(report, line.bytes())
}

// Puts what is asked for.
fn put_look<R: Sink>(
    machine: &Machine,
    driver: &Driver,
    text: &mut Vec<u8>,
    look: &Look,
    report: &mut R,
) -> Result<(), PutFault>
    requires there { HasItsNode machine.now.config.nodes look.now }
    requires nodes { driver.now.nodes ≡ machine.now.config.nodes }
    requires rules { driver.now.rules ≡ usual_rules }
    requires life { driver.now.numbers.done < 4000000000 }
    ensures ok { OnOk result ((c : Option (List ℕ)) → ends c (R.written report.new) ≡ after (ends c (R.written report.old))
        (Report (look_line machine.now.image machine.now.config machine.now.state driver.now.numbers look.now) ∷ [])) }
    ensures sink { result ≡ Err PutFault.Sink → (c : Option (List ℕ)) →
        Breaks (Report (look_line machine.now.image machine.now.config machine.now.state driver.now.numbers look.now) ∷ [])
        (ends c (R.written report.old)) (ends c (R.written report.new)) }
    ensures memory { result ≡ Err PutFault.Memory → report.new ≡ report.old }
    ensures later { R.faults report.old ≤ R.faults report.new }
    ensures cause { result ≡ Err PutFault.Sink → Rose (R.faults report.old) (R.faults report.new) }
{
    let Ok(()) = write_look(text, machine, driver, look) else {
        return Err(PutFault::Memory);
    };
    match put_report(report, text.as_slice()) {
        Ok(()) => Ok(()),
        Err(_) => Err(PutFault::Sink),
    }
}

// Puts how many events are done.
fn put_mark<R: Sink>(machine: &Machine, line: &mut Line, report: &mut R) -> Result<(), Failed>
    ensures ok { OnOk result ((c : Option (List ℕ)) → ends c (R.written report.new)
        ≡ after (ends c (R.written report.old)) (Report (mark_line machine.now.applied) ∷ [])) }
    ensures err { OnErr result ((c : Option (List ℕ)) → Breaks (Report (mark_line machine.now.applied) ∷ [])
        (ends c (R.written report.old)) (ends c (R.written report.new))) }
    ensures later { R.faults report.old ≤ R.faults report.new }
    ensures cause { OnErr result (Rose (R.faults report.old) (R.faults report.new)) }
{
    write_mark(line, u64::from(machine.applied()));
    put_report(report, line.bytes())
}

// Puts that so many events stay, or why there are no so many.
fn put_back<R: Sink>(
    line: &mut Line,
    done: u32,
    number: u64,
    events: u32,
    report: &mut R,
) -> Result<(), Failed>
    ensures ok { OnOk result ((c : Option (List ℕ)) → ends c (R.written report.new)
        ≡ after (ends c (R.written report.old)) (Report (back_answer done number events) ∷ [])) }
    ensures err { OnErr result ((c : Option (List ℕ)) → Breaks (Report (back_answer done number events) ∷ [])
        (ends c (R.written report.old)) (ends c (R.written report.new))) }
    ensures later { R.faults report.old ≤ R.faults report.new }
    ensures cause { OnErr result (Rose (R.faults report.old) (R.faults report.new)) }
{
    write_answer(line, done, number, events);
    put_report(report, line.bytes())
}

// Goes back where so many events are done, and puts it.
#[tactic(auto, using(std::proofs::lemmas::List::take_all))]
fn answer_back<R: Sink>(
    alloc: Global,
    machine: &mut Machine,
    driver: &mut Driver,
    kept: &mut Kept,
    line: &mut Line,
    number: u64,
    events: u32,
    report: &mut R,
) -> Result<(), PutFault>
    requires count { machine.old.applied ≡ length kept.old }
    requires few { length kept.old ≤ EVENTS }
    requires fit { AllFit machine.old.config.nodes kept.old }
    ensures next { OnOk result (machine.new ≡ machine_back machine.old kept.old events) }
    ensures counted { OnOk result (driver.new ≡ driver_back driver.old machine.old kept.old events) }
    ensures kept { OnOk result (kept.new ≡ take events kept.old) }
    ensures ok { OnOk result ((c : Option (List ℕ)) → ends c (R.written report.new)
        ≡ after (ends c (R.written report.old)) (Report (back_answer machine.old.applied number events) ∷ [])) }
    ensures sink { result ≡ Err PutFault.Sink → (c : Option (List ℕ)) →
        Breaks (Report (back_answer machine.old.applied number events) ∷ [])
        (ends c (R.written report.old)) (ends c (R.written report.new)) }
    ensures memory { result ≡ Err PutFault.Memory → (events ≤ length kept.old)
        × (machine.new ≡ machine.old) × (driver.new ≡ driver.old) × (kept.new ≡ kept.old) × (report.new ≡ report.old) }
    ensures later { R.faults report.old ≤ R.faults report.new }
    ensures cause { result ≡ Err PutFault.Sink → Rose (R.faults report.old) (R.faults report.new) }
{
    let done = machine.applied();
    if events <= done {
        let Ok(()) = go_back(alloc, machine, driver, kept, events) else {
            return Err(PutFault::Memory);
        };
    }
    match put_back(line, done, number, events, report) {
        Ok(()) => Ok(()),
        Err(_) => Err(PutFault::Sink),
    }
}

// Answers an event: it is applied, told to the probes and put, and then counted by the driver and kept.
fn answer_event<C: Sink, R: Sink>(
    machine: &mut Machine,
    driver: &mut Driver,
    kept: &mut Kept,
    line: &mut Line,
    text: &mut Vec<u8>,
    event: &Event,
    showing: &DriveShowing,
    probes: &mut ProbeSet,
    console: &mut C,
    report: &mut R,
) -> Result<(), PutFault>
    requires life { driver.old.numbers.done < 4000000000 }
    requires few { length kept.old < EVENTS }
    requires there { IsThere machine.old.config.nodes event.now }
    requires room { 1 ≤ machine.old.spare }
    requires watched { IsWatchable (watch_of showing.now) }
    ensures next { OnOk result (machine.new ≡ after_event machine.old event.now) }
    ensures counted { OnOk result (driver.new
        ≡ record driver.old { numbers = numbers_after driver.old.numbers event.now (next_of machine.old event.now).answer }) }
    ensures kept { OnOk result (kept.new ≡ kept.old ++ event.now ∷ []) }
    ensures told { OnOk result (meters_in first tally step probes.new.probes.items
        ≡ told_next machine.old event.now (meters_in first tally step probes.old.probes.items)) }
    ensures ok { OnOk result (ends (C.written console.new) (R.written report.new)
        ≡ after (ends (C.written console.old) (R.written report.old)) (event_now machine.old showing.now event.now)) }
    ensures sink { result ≡ Err PutFault.Sink → Breaks (event_now machine.old showing.now event.now)
        (ends (C.written console.old) (R.written report.old)) (ends (C.written console.new) (R.written report.new)) }
    ensures knows { result ≡ Err PutFault.Sink → meters_in first tally step probes.new.probes.items
        ≡ told_next machine.old event.now (meters_in first tally step probes.old.probes.items) }
    ensures memory { result ≡ Err PutFault.Memory → ShowsStates showing.now
        × (driver.new ≡ driver.old) × (kept.new ≡ kept.old)
        × (console.new ≡ console.old) × (report.new ≡ report.old) × (probes.new ≡ probes.old) }
    ensures console_later { C.faults console.old ≤ C.faults console.new }
    ensures report_later { R.faults report.old ≤ R.faults report.new }
    ensures cause { result ≡ Err PutFault.Sink
        → Rose (C.faults console.old) (C.faults console.new) ⊎ Rose (R.faults report.old) (R.faults report.new) }
{
    match put_turn(machine, line, text, event, showing, probes, console, report) {
        Ok(came_to) => {
            driver.note(event, &came_to);
            kept.add(*event);
            Ok(())
        }
        Err(fault) => Err(fault),
    }
}

/// Answers what the line of this number says. Where memory is lacking for an event, the machine may be before it or after it.
pub(crate) fn answer<C: Sink, R: Sink>(
    alloc: Global,
    machine: &mut Machine,
    driver: &mut Driver,
    kept: &mut Kept,
    line: &mut Line,
    text: &mut Vec<u8>,
    number: u64,
    said: &Said,
    showing: &DriveShowing,
    probes: &mut ProbeSet,
    console: &mut C,
    report: &mut R,
) -> Result<(), PutFault>
    requires nodes { driver.old.nodes ≡ machine.old.config.nodes }
    requires rules { driver.old.rules ≡ usual_rules }
    requires life { driver.old.numbers.done < 4000000000 }
    requires count { machine.old.applied ≡ length kept.old }
    requires few { length kept.old + length (event_in said.now) ≤ EVENTS }
    requires fit { AllFit machine.old.config.nodes kept.old }
    requires fits { SaidFits machine.old.config.nodes said.now }
    requires room { length (event_in said.now) ≤ machine.old.spare }
    requires watched { IsWatchable (watch_of showing.now) }
    ensures next { OnOk result (machine.new ≡ machine_after machine.old kept.old said.now) }
    ensures counted { OnOk result (driver.new ≡ driver_after driver.old machine.old kept.old said.now) }
    ensures kept { OnOk result (kept.new ≡ done_after kept.old said.now) }
    ensures told { OnOk result (meters_in first tally step probes.new.probes.items
        ≡ told_after machine.old said.now (meters_in first tally step probes.old.probes.items)) }
    ensures ok { OnOk result (ends (C.written console.new) (R.written report.new)
        ≡ after (ends (C.written console.old) (R.written report.old)) (answer_now machine.old driver.old showing.now number said.now)) }
    ensures sink { result ≡ Err PutFault.Sink → Breaks (answer_now machine.old driver.old showing.now number said.now)
        (ends (C.written console.old) (R.written report.old)) (ends (C.written console.new) (R.written report.new)) }
    ensures knows { result ≡ Err PutFault.Sink → meters_in first tally step probes.new.probes.items
        ≡ told_after machine.old said.now (meters_in first tally step probes.old.probes.items) }
    ensures memory { result ≡ Err PutFault.Memory → WantsMemory showing.now kept.old said.now
        × (driver.new ≡ driver.old) × (kept.new ≡ kept.old)
        × (console.new ≡ console.old) × (report.new ≡ report.old) × (probes.new ≡ probes.old) }
    ensures console_later { C.faults console.old ≤ C.faults console.new }
    ensures report_later { R.faults report.old ≤ R.faults report.new }
    ensures cause { result ≡ Err PutFault.Sink
        → Rose (C.faults console.old) (C.faults console.new) ⊎ Rose (R.faults report.old) (R.faults report.new) }
{
    match said {
        Said::Nothing => Ok(()),
        Said::Does(event) => answer_event(
            machine, driver, kept, line, text, event, showing, probes, console, report,
        ),
        Said::Foresees(event) => match put_foreseen(machine, line, event, report) {
            Ok(()) => Ok(()),
            Err(_) => Err(PutFault::Sink),
        },
        Said::Looks(look) => put_look(machine, driver, text, look, report),
        Said::Marks => match put_mark(machine, line, report) {
            Ok(()) => Ok(()),
            Err(_) => Err(PutFault::Sink),
        },
        Said::Back(events) => {
            answer_back(alloc, machine, driver, kept, line, number, *events, report)
        }
        Said::Refused(fault) => match put_refusal(line, number, *fault, report) {
            Ok(()) => Ok(()),
            Err(_) => Err(PutFault::Sink),
        },
    }
}
