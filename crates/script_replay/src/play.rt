//! Events one after another: what each releases goes to the console, and its group of lines to the report.
ghost use Rattle.std.specs.Prelude.{◌≡◌, ℕ, List, [], ◌∷◌, ◌+◌, ◌≤◌, ◌++◌, ◌⊎◌, true, length, drop, All, Option, OnOk, OnErr, IfOk, Err, codes};
ghost use Rattle.sn_base.specs.Events.{event_fits};
ghost use Rattle.sn_io.specs.Outside.{Rose};
ghost use Rattle.sink_pieces.specs.Pieces.{ends, after, Breaks};
ghost use Rattle.due_events.specs.Machine.{next_of};
ghost use Rattle.sn_text.specs.Written.{HasValues};
ghost use Rattle.sn_probe.specs.Probes.{meters_in, tallies_of};
ghost use Rattle.script_replay.specs.Pieces.{group_pieces, trace_pieces, tally_pieces, summary_pieces};
ghost use Rattle.script_replay.specs.Played.{after_event, since, group_now, summary_pieces_of, end_now, turn_now, told_next};
ghost use Rattle.script_replay.specs.Played.{IsAlone, IsWatchable, IsAtStart, MayBegin};
ghost use Rattle.script_replay.specs.Probed.{told_all};
ghost use Rattle.script_replay.specs.Scheduled.{left_on, replay_of};
ghost use Rattle.script_replay.specs.Shown.{IsReplayed, IsBrokenOff, KnowApplied};

use crate::job::{ReportKind, Showing};
use crate::lines::{write_group, write_summary, write_tally};
use crate::replaying::ReplayFault;
use crate::schedule::Schedule;
use due_events::sn_machine::Machine;
use rv_core::Record;
use sink_pieces::{put_console, put_report};
use sn_base::{Answer, Event};
use sn_io::{Failed, Sink};
use sn_probe::ProbeSet;
use sn_text::Line;
use std::alloc::Global;

// What was released since there were so many bytes.
fn fresh(released: &[u8], had: usize) -> &[u8]
    requires { had ≤ length released.now }
    ensures { result.now ≡ drop had released.now }
{
    &released[had..]
}

// Puts the group of the machine's last event, where the events are asked for; so many were applied before those that are counted.
fn put_group<R: Sink>(
    line: &mut Line,
    before: u32,
    event: &Event,
    answer: &Answer,
    machine: &Machine,
    showing: &Showing,
    report: &mut R,
) -> Result<(), Failed>
    requires alone { IsAlone answer.now machine.now.sent }
    requires counted { before ≤ machine.now.applied }
    requires watched { IsWatchable showing.now.watch }
    ensures ok { OnOk result ((c : Option (List ℕ)) → ends c (R.written report.new)
        ≡ after (ends c (R.written report.old))
        (group_pieces showing.now.report (group_now (since before machine.now) showing.now.watch event.now answer.now))) }
    ensures err { OnErr result ((c : Option (List ℕ)) →
        Breaks (group_pieces showing.now.report (group_now (since before machine.now) showing.now.watch event.now answer.now))
        (ends c (R.written report.old)) (ends c (R.written report.new))) }
    ensures later { R.faults report.old ≤ R.faults report.new }
    ensures cause { OnErr result (Rose (R.faults report.old) (R.faults report.new)) }
{
    match showing.report {
        ReportKind::Events => {
            write_group(line, before, event, answer, machine, showing.watch);
            put_report(report, line.bytes())?;
            Ok(())
        }
        _ => Ok(()),
    }
}

// Puts the lines of a trace.
fn put_trace<R: Sink>(line: &mut Line, records: &[Record], report: &mut R) -> Result<(), Failed>
    ensures ok { OnOk result ((c : Option (List ℕ)) →
        ends c (R.written report.new) ≡ after (ends c (R.written report.old)) (trace_pieces records.now)) }
    ensures err { OnErr result ((c : Option (List ℕ)) →
        Breaks (trace_pieces records.now) (ends c (R.written report.old)) (ends c (R.written report.new))) }
    ensures values { OnOk result (All HasValues records.now) }
    ensures later { R.faults report.old ≤ R.faults report.new }
    ensures cause { OnErr result (Rose (R.faults report.old) (R.faults report.new)) }
{
    'records: for taken in records {
        line.clear();
        line.trace(taken);
        put_report(report, line.bytes())?;
    }
    Ok(())
}

// Puts what the probes have measured.
fn put_tallies<R: Sink>(
    line: &mut Line,
    before: &str,
    probes: &ProbeSet,
    report: &mut R,
) -> Result<(), Failed>
    requires before_short { length before.now ≤ 2 }
    ensures ok { OnOk result ((c : Option (List ℕ)) → ends c (R.written report.new) ≡ after (ends c (R.written report.old))
        (tally_pieces before.now 0 (tallies_of (meters_in first tally step probes.now.probes.items)))) }
    ensures err { OnErr result ((c : Option (List ℕ)) →
        Breaks (tally_pieces before.now 0 (tallies_of (meters_in first tally step probes.now.probes.items)))
        (ends c (R.written report.old)) (ends c (R.written report.new))) }
    ensures later { R.faults report.old ≤ R.faults report.new }
    ensures cause { OnErr result (Rose (R.faults report.old) (R.faults report.new)) }
{
    'probes: for probe in 0..probes.count() {
        write_tally(line, before, probes, probe);
        put_report(report, line.bytes())?;
    }
    Ok(())
}

/// Puts the summary, with `before` before each of its lines: what it says of so many events, of the machine and of each probe.
pub fn put_counted_summary<R: Sink>(
    line: &mut Line,
    before: &str,
    events: u64,
    machine: &Machine,
    watch: Option<u32>,
    probes: &ProbeSet,
    report: &mut R,
) -> Result<(), Failed>
    requires before_short { length before.now ≤ 2 }
    requires watched { IsWatchable watch }
    ensures ok { OnOk result ((c : Option (List ℕ)) → ends c (R.written report.new) ≡ after (ends c (R.written report.old))
        (summary_pieces before.now machine.now.image machine.now.config watch
        (tallies_of (meters_in first tally step probes.now.probes.items)) events machine.now.state)) }
    ensures err { OnErr result ((c : Option (List ℕ)) →
        Breaks (summary_pieces before.now machine.now.image machine.now.config watch
        (tallies_of (meters_in first tally step probes.now.probes.items)) events machine.now.state)
        (ends c (R.written report.old)) (ends c (R.written report.new))) }
    ensures later { R.faults report.old ≤ R.faults report.new }
    ensures cause { OnErr result (Rose (R.faults report.old) (R.faults report.new)) }
{
    write_summary(line, before, events, machine, watch);
    put_report(report, line.bytes())?;
    put_tallies(line, before, probes, report)?;
    Ok(())
}

/// Puts the summary of the events that were applied to the machine.
pub fn put_summary<R: Sink>(
    line: &mut Line,
    before: &str,
    machine: &Machine,
    watch: Option<u32>,
    probes: &ProbeSet,
    report: &mut R,
) -> Result<(), Failed>
    requires before_short { length before.now ≤ 2 }
    requires watched { IsWatchable watch }
    ensures ok { OnOk result ((c : Option (List ℕ)) → ends c (R.written report.new) ≡ after (ends c (R.written report.old))
        (summary_pieces_of before.now machine.now watch (tallies_of (meters_in first tally step probes.now.probes.items)))) }
    ensures err { OnErr result ((c : Option (List ℕ)) →
        Breaks (summary_pieces_of before.now machine.now watch (tallies_of (meters_in first tally step probes.now.probes.items)))
        (ends c (R.written report.old)) (ends c (R.written report.new))) }
    ensures later { R.faults report.old ≤ R.faults report.new }
    ensures cause { OnErr result (Rose (R.faults report.old) (R.faults report.new)) }
{
    let events = u64::from(machine.applied());
    put_counted_summary(line, before, events, machine, watch, probes, report)
}

/// Puts what stands at the end: the summary, after the committed trace where that is asked for.
pub fn put_end<R: Sink>(
    line: &mut Line,
    machine: &Machine,
    showing: &Showing,
    probes: &ProbeSet,
    report: &mut R,
) -> Result<(), Failed>
    requires watched { IsWatchable showing.now.watch }
    ensures ok { OnOk result ((c : Option (List ℕ)) → ends c (R.written report.new) ≡ after (ends c (R.written report.old))
        (end_now machine.now showing.now (tallies_of (meters_in first tally step probes.now.probes.items)))) }
    ensures err { OnErr result ((c : Option (List ℕ)) →
        Breaks (end_now machine.now showing.now (tallies_of (meters_in first tally step probes.now.probes.items)))
        (ends c (R.written report.old)) (ends c (R.written report.new))) }
    ensures values { OnOk result (showing.now.report ≡ ReportKind.Trace → All HasValues machine.now.state.committed) }
    ensures later { R.faults report.old ≤ R.faults report.new }
    ensures cause { OnErr result (Rose (R.faults report.old) (R.faults report.new)) }
{
    match showing.report {
        ReportKind::Trace => {
            let view = machine.recovered();
            put_trace(line, view.committed(), report)?;
            put_summary(line, "# ", machine, showing.watch, probes, report)?;
            Ok(())
        }
        _ => {
            put_summary(line, "", machine, showing.watch, probes, report)?;
            Ok(())
        }
    }
}

/// One event: every probe is told it; then its piece for the console, where it releases bytes, and its group for the report. Its
/// place is counted from those on before which so many were applied.
pub fn turn_since<C: Sink, R: Sink>(
    machine: &mut Machine,
    line: &mut Line,
    before: u32,
    event: &Event,
    showing: &Showing,
    probes: &mut ProbeSet,
    console: &mut C,
    report: &mut R,
) -> Result<Answer, Failed>
    requires fits { event_fits machine.old.config.nodes event.now ≡ true }
    requires room { 1 ≤ machine.old.spare }
    requires counted { before ≤ machine.old.applied }
    requires watched { IsWatchable showing.now.watch }
    ensures next { machine.new ≡ after_event machine.old event.now }
    ensures answer { IfOk result (λ answer. answer ≡ (next_of machine.old event.now).answer) }
    ensures told { meters_in first tally step probes.new.probes.items
        ≡ told_next (since before machine.old) event.now (meters_in first tally step probes.old.probes.items) }
    ensures ok { OnOk result (ends (C.written console.new) (R.written report.new)
        ≡ after (ends (C.written console.old) (R.written report.old))
        (turn_now (since before machine.old) showing.now event.now)) }
    ensures err { OnErr result (Breaks (turn_now (since before machine.old) showing.now event.now)
        (ends (C.written console.old) (R.written report.old)) (ends (C.written console.new) (R.written report.new))) }
    ensures console_later { C.faults console.old ≤ C.faults console.new }
    ensures report_later { R.faults report.old ≤ R.faults report.new }
    ensures cause { OnErr result
        (Rose (C.faults console.old) (C.faults console.new) ⊎ Rose (R.faults report.old) (R.faults report.new)) }
{
    let had = machine.recovered().released().len();
    let answer = machine.apply(*event);
    let place = u64::from(machine.applied() - before);
    probes.told(place, event, &answer);
    let view = machine.recovered();
    put_console(console, fresh(view.released(), had))?;
    put_group(line, before, event, &answer, machine, showing, report)?;
    Ok(answer)
}

/// One event of a machine that began at its program's start.
pub fn turn<C: Sink, R: Sink>(
    machine: &mut Machine,
    line: &mut Line,
    event: &Event,
    showing: &Showing,
    probes: &mut ProbeSet,
    console: &mut C,
    report: &mut R,
) -> Result<Answer, Failed>
    requires fits { event_fits machine.old.config.nodes event.now ≡ true }
    requires room { 1 ≤ machine.old.spare }
    requires watched { IsWatchable showing.now.watch }
    ensures next { machine.new ≡ after_event machine.old event.now }
    ensures answer { IfOk result (λ answer. answer ≡ (next_of machine.old event.now).answer) }
    ensures told { meters_in first tally step probes.new.probes.items
        ≡ told_next machine.old event.now (meters_in first tally step probes.old.probes.items) }
    ensures ok { OnOk result (ends (C.written console.new) (R.written report.new)
        ≡ after (ends (C.written console.old) (R.written report.old)) (turn_now machine.old showing.now event.now)) }
    ensures err { OnErr result (Breaks (turn_now machine.old showing.now event.now)
        (ends (C.written console.old) (R.written report.old)) (ends (C.written console.new) (R.written report.new))) }
    ensures console_later { C.faults console.old ≤ C.faults console.new }
    ensures report_later { R.faults report.old ≤ R.faults report.new }
    ensures cause { OnErr result
        (Rose (C.faults console.old) (C.faults console.new) ⊎ Rose (R.faults report.old) (R.faults report.new)) }
{
    turn_since(machine, line, 0, event, showing, probes, console, report)
}

/// Applies the events of a schedule one after another, tells each to the probes and puts its pieces, and then puts those of the
/// end. All of its memory, which is a line's, it takes first.
pub fn play<S: Schedule, C: Sink, R: Sink>(
    alloc: Global,
    machine: &mut Machine,
    schedule: &mut S,
    showing: &Showing,
    probes: &mut ProbeSet,
    console: &mut C,
    report: &mut R,
) -> Result<(), ReplayFault>
    requires ready { IsAtStart machine.old machine.old.image machine.old.config
        (length (left_on (S.left schedule.old) machine.old)) }
    requires serves { S.serves schedule.old machine.old.config.nodes }
    requires begin { MayBegin (replay_of machine.old showing.now (left_on (S.left schedule.old) machine.old)) }
    ensures ok { OnOk result (IsReplayed (replay_of machine.old showing.now (left_on (S.left schedule.old) machine.old))
        (meters_in first tally step probes.old.probes.items)
        (ends (C.written console.old) (R.written report.old)) (ends (C.written console.new) (R.written report.new))) }
    ensures told { OnOk result (meters_in first tally step probes.new.probes.items
        ≡ told_all (replay_of machine.old showing.now (left_on (S.left schedule.old) machine.old))
        (meters_in first tally step probes.old.probes.items)) }
    ensures sink { result ≡ Err ReplayFault.Sink →
        IsBrokenOff (replay_of machine.old showing.now (left_on (S.left schedule.old) machine.old))
        (meters_in first tally step probes.old.probes.items)
        (ends (C.written console.old) (R.written report.old)) (ends (C.written console.new) (R.written report.new)) }
    ensures applied { result ≡ Err ReplayFault.Sink →
        KnowApplied (replay_of machine.old showing.now (left_on (S.left schedule.old) machine.old))
        (meters_in first tally step probes.old.probes.items)
        (ends (C.written console.old) (R.written report.old)) (ends (C.written console.new) (R.written report.new))
        (meters_in first tally step probes.new.probes.items) }
    ensures memory { result ≡ Err ReplayFault.Memory →
        (console.new ≡ console.old) × (report.new ≡ report.old) × (probes.new ≡ probes.old) }
    ensures console_later { C.faults console.old ≤ C.faults console.new }
    ensures report_later { R.faults report.old ≤ R.faults report.new }
    ensures cause { result ≡ Err ReplayFault.Sink
        → Rose (C.faults console.old) (C.faults console.new) ⊎ Rose (R.faults report.old) (R.faults report.new) }
{
    let Ok(mut line) = Line::new(alloc) else {
        return Err(ReplayFault::Memory);
    };
    'events: while let Some(event) = schedule.next(machine) {
        match turn(machine, &mut line, &event, showing, probes, console, report) {
            Ok(answer) => schedule.note(&event, &answer),
            Err(_) => return Err(ReplayFault::Sink),
        }
    }
    match put_end(&mut line, machine, showing, probes, report) {
        Ok(()) => Ok(()),
        Err(_) => Err(ReplayFault::Sink),
    }
}
