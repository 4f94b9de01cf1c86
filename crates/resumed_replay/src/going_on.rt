//! All memory first, then the events, and then the summary.
ghost use Rattle.std.specs.Prelude.{◌≡◌, ◌+◌, ◌≤◌, ◌⊎◌, max, length, OnOk, OnErr, Err};
ghost use Rattle.sn_io.specs.Outside.{Rose};
ghost use Rattle.sink_pieces.specs.Pieces.{ends};
ghost use Rattle.sn_probe.specs.Probes.{meters_in};
ghost use Rattle.resumed_replay.specs.Shown.{MayGoOn, job_of, told_script, IsDone, IsBrokenOff, KnowApplied};

use crate::job::ResumedReplay;
use script_replay::{ReplayFault, ReportKind, Showing, put_counted_summary, put_turns};
use sn_base::{Event, Memory};
use sn_io::{Failed, Sink};
use sn_machine::Machine;
use sn_probe::ProbeSet;
use sn_text::Line;
use std::alloc::Global;

// A line, and room for so many events.
fn ready(alloc: Global, machine: &mut Machine, events: u32) -> Result<Line, Memory>
    requires { machine.old.applied + events ≤ 4000000000 }
    ensures ok { OnOk result (machine.new ≡ record machine.old { spare = max machine.old.spare events }) }
    ensures err { OnErr result (machine.new ≡ machine.old) }
{
    let line = Line::new(alloc)?;
    machine.reserve(events)?;
    Ok(line)
}

// All but taking the memory.
fn put_all<C: Sink, R: Sink>(
    machine: &mut Machine,
    line: &mut Line,
    events: &[Event],
    watch: Option<u32>,
    probes: &mut ProbeSet,
    console: &mut C,
    report: &mut R,
) -> Result<(), Failed>
    requires may { MayGoOn (job_of machine.old watch events.now) }
    requires room { length events.now ≤ machine.old.spare }
    ensures ok { OnOk result (IsDone (job_of machine.old watch events.now) (meters_in first tally step probes.old.probes.items)
        (ends (C.written console.old) (R.written report.old)) (ends (C.written console.new) (R.written report.new))) }
    ensures told { OnOk result (meters_in first tally step probes.new.probes.items
        ≡ told_script (job_of machine.old watch events.now) (meters_in first tally step probes.old.probes.items)) }
    ensures sink { OnErr result (IsBrokenOff (job_of machine.old watch events.now) (meters_in first tally step probes.old.probes.items)
        (ends (C.written console.old) (R.written report.old)) (ends (C.written console.new) (R.written report.new))) }
    ensures applied { OnErr result (KnowApplied (job_of machine.old watch events.now)
        (meters_in first tally step probes.old.probes.items)
        (ends (C.written console.old) (R.written report.old)) (ends (C.written console.new) (R.written report.new))
        (meters_in first tally step probes.new.probes.items)) }
    ensures console_later { C.faults console.old ≤ C.faults console.new }
    ensures report_later { R.faults report.old ≤ R.faults report.new }
    ensures cause { OnErr result
        (Rose (C.faults console.old) (C.faults console.new) ⊎ Rose (R.faults report.old) (R.faults report.new)) }
{
    let before = machine.applied();
    let showing = Showing {
        report: ReportKind::Events,
        watch,
    };
    put_turns(
        machine, line, before, events, &showing, probes, console, report,
    )?;
    let count = events.len() as u64;
    put_counted_summary(line, "", count, machine, watch, probes, report)
}

/// Applies the events in order to the machine that goes on, tells each to every probe, puts the bytes that are released to the
/// console, and each event's group and the summary to the report. Events and places are counted from 1.
pub fn replay_resumed<C: Sink, R: Sink>(
    alloc: Global,
    job: ResumedReplay,
    probes: &mut ProbeSet,
    console: &mut C,
    report: &mut R,
) -> Result<(), ReplayFault>
    requires { MayGoOn job }

    // All events are applied and told, and all pieces are put.
    ensures ok { OnOk result (IsDone job (meters_in first tally step probes.old.probes.items)
        (ends (C.written console.old) (R.written report.old)) (ends (C.written console.new) (R.written report.new))) }
    ensures told { OnOk result (meters_in first tally step probes.new.probes.items
        ≡ told_script job (meters_in first tally step probes.old.probes.items)) }

    // A sink broke, and the probes were told just the events that were applied.
    ensures sink { result ≡ Err ReplayFault.Sink → IsBrokenOff job (meters_in first tally step probes.old.probes.items)
        (ends (C.written console.old) (R.written report.old)) (ends (C.written console.new) (R.written report.new)) }
    ensures applied { result ≡ Err ReplayFault.Sink → KnowApplied job (meters_in first tally step probes.old.probes.items)
        (ends (C.written console.old) (R.written report.old)) (ends (C.written console.new) (R.written report.new))
        (meters_in first tally step probes.new.probes.items) }

    // Memory was lacking, and nothing is done.
    ensures memory { result ≡ Err ReplayFault.Memory →
        (console.new ≡ console.old) × (report.new ≡ report.old) × (probes.new ≡ probes.old) }
    ensures console_later { C.faults console.old ≤ C.faults console.new }
    ensures report_later { R.faults report.old ≤ R.faults report.new }
    ensures cause { result ≡ Err ReplayFault.Sink
        → Rose (C.faults console.old) (C.faults console.new) ⊎ Rose (R.faults report.old) (R.faults report.new) }
{
    let ResumedReplay {
        machine,
        watch,
        script,
    } = job;
    let mut machine = machine;
    let events = script.events();
    let Ok(mut line) = ready(alloc, &mut machine, events.len() as u32) else {
        drop(machine);
        return Err(ReplayFault::Memory);
    };
    let put = put_all(
        &mut machine,
        &mut line,
        events,
        watch,
        probes,
        console,
        report,
    );
    drop(machine);
    match put {
        Ok(()) => Ok(()),
        Err(_) => Err(ReplayFault::Sink),
    }
}
