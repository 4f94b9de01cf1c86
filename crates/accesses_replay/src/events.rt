//! The parts of such a replay: all memory, the events, and the end.
ghost use Rattle.std.specs.Prelude.{◌≡◌, ℕ, ◌≤◌, ◌⊎◌, true, List, Option, OnOk, OnErr, IfSome, length};
ghost use Rattle.sn_base.specs.Config.{config_fits};
ghost use Rattle.sn_io.specs.Outside.{Rose};
ghost use Rattle.sink_pieces.specs.Pieces.{ends, after, Breaks};
ghost use Rattle.rv_core.specs.Flat.{first_cores};
ghost use Rattle.sn_machine.specs.Machine.{machine_with_room};
ghost use Rattle.consistent_cuts.specs.Runs.{AllFit};
ghost use Rattle.sn_probe.specs.Probes.{meters_in, tallies_of};
ghost use Rattle.script_replay.specs.Played.{turns_left, told_left, StopsAt, IsWatchable};
ghost use Rattle.accesses_replay.specs.Pieces.{after_events, quietly, end_pieces};
ghost use Rattle.sn_base.specs.declared.limits.TheConstants.{EVENTS};

use committed_accesses::AccessRows;
use script_replay::{ReportKind, Showing, put_summary, turn};
use sn_base::{Config, Event, Image};
use sn_io::{Failed, Sink};
use sn_machine::Machine;
use sn_probe::ProbeSet;
use sn_text::Line;
use std::alloc::Global;

/// All memory of a replay.
#[derive(Drop)]
pub struct Ready {
    pub machine: Machine,
    pub line: Line,
    pub rows: AccessRows,
}

/// A machine of these sizes at the start of the program, with room for so many events, and the room of the rows.
pub fn ready_for(alloc: Global, program: Image, config: Config, events: u32) -> Option<Ready>
    requires sizes { config_fits config ≡ true }
    requires few { events ≤ EVENTS }
    ensures machine { IfSome result (λ r. r.machine ≡ machine_with_room program config events) }
    ensures rows { IfSome result (λ r. r.rows.cores ≡ first_cores config.nodes program.entry) }
{
    let Ok(line) = Line::new(alloc) else {
        return None;
    };
    let Ok(rows) = AccessRows::start(alloc, &program, config.nodes) else {
        return None;
    };
    match Machine::with_room(alloc, program, config, events) {
        Ok(machine) => Some(Ready {
            machine,
            line,
            rows,
        }),
        Err(_) => None,
    }
}

/// Applies events one after another, tells each to the probes and puts what it releases.
pub fn put_events<C: Sink, R: Sink>(
    machine: &mut Machine,
    line: &mut Line,
    events: &[Event],
    watch: Option<u32>,
    probes: &mut ProbeSet,
    console: &mut C,
    report: &mut R,
) -> Result<(), Failed>
    requires fit { AllFit machine.old.config.nodes events.now }
    requires room { length events.now ≤ machine.old.spare }
    requires watched { IsWatchable watch }
    ensures machine { OnOk result (machine.new ≡ after_events machine.old events.now) }
    ensures told { OnOk result (meters_in first tally step probes.new.probes.items
        ≡ told_left machine.old events.now (meters_in first tally step probes.old.probes.items)) }
    ensures ok { OnOk result (ends (C.written console.new) (R.written report.new)
        ≡ after (ends (C.written console.old) (R.written report.old)) (turns_left machine.old (quietly watch) events.now)) }
    ensures stops { OnErr result ((i : ℕ) × StopsAt machine.old (quietly watch) events.now i
        (ends (C.written console.old) (R.written report.old)) (meters_in first tally step probes.old.probes.items)
        (ends (C.written console.new) (R.written report.new)) (meters_in first tally step probes.new.probes.items)) }
    ensures console_later { C.faults console.old ≤ C.faults console.new }
    ensures report_later { R.faults report.old ≤ R.faults report.new }
    ensures cause { OnErr result
        (Rose (C.faults console.old) (C.faults console.new) ⊎ Rose (R.faults report.old) (R.faults report.new)) }
{
    let showing = Showing {
        report: ReportKind::Summary,
        watch,
    };
    'events: for event in events {
        turn(machine, line, event, &showing, probes, console, report)?;
    }
    Ok(())
}

/// Puts the rows of the machine's committed trace, and then the summary.
pub fn put_end<R: Sink>(
    rows: &mut AccessRows,
    line: &mut Line,
    machine: &Machine,
    watch: Option<u32>,
    probes: &ProbeSet,
    report: &mut R,
) -> Result<(), Failed>
    requires start { rows.old.cores ≡ first_cores machine.now.config.nodes machine.now.image.entry }
    requires watched { IsWatchable watch }
    ensures ok { OnOk result ((c : Option (List ℕ)) → ends c (R.written report.new) ≡ after (ends c (R.written report.old))
        (end_pieces machine.now.image machine.now.config watch (tallies_of (meters_in first tally step probes.now.probes.items))
        machine.now.applied machine.now.state)) }
    ensures err { OnErr result ((c : Option (List ℕ)) →
        Breaks (end_pieces machine.now.image machine.now.config watch (tallies_of (meters_in first tally step probes.now.probes.items))
        machine.now.applied machine.now.state) (ends c (R.written report.old)) (ends c (R.written report.new))) }
    ensures later { R.faults report.old ≤ R.faults report.new }
    ensures cause { OnErr result (Rose (R.faults report.old) (R.faults report.new)) }
{
    let view = machine.recovered();
    let nodes = machine.config().nodes;
    rows.put(machine.image(), nodes, view.committed(), report)?;
    put_summary(line, "# ", machine, watch, probes, report)?;
    Ok(())
}
