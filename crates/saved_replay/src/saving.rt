//! All memory first, then the events, and then the save file.
ghost use Rattle.std.specs.Prelude.{◌≡◌, ◌≤◌, ◌⊎◌, length, OnOk, OnErr, Err};
ghost use Rattle.sn_machine.specs.Machine.{machine_with_room};
ghost use Rattle.sn_io.specs.Outside.{Rose};
ghost use Rattle.sink_pieces.specs.Pieces.{ends};
ghost use Rattle.sn_probe.specs.Probes.{meters_in};
ghost use Rattle.saved_replay.specs.Shown.{MaySave, job_of, told_script, IsDone, IsBrokenOff, KnowApplied};

use crate::job::SavedReplay;
use script_replay::{ReplayFault, ReportKind, Showing, put_turns};
use sn_base::Event;
use sn_io::{Failed, Sink};
use sn_machine::Machine;
use sn_probe::ProbeSet;
use sn_resume::save;
use sn_text::Line;
use std::alloc::Global;

// All but taking the memory.
fn put_all<C: Sink, R: Sink>(
    machine: &mut Machine,
    line: &mut Line,
    events: &[Event],
    probes: &mut ProbeSet,
    console: &mut C,
    report: &mut R,
) -> Result<(), Failed>
    requires start { machine.old ≡ machine_with_room machine.old.image machine.old.config (length events.now) }
    requires may { MaySave (job_of machine.old events.now) }
    ensures ok { OnOk result (IsDone (job_of machine.old events.now)
        (ends (C.written console.old) (R.written report.old)) (ends (C.written console.new) (R.written report.new))) }
    ensures told { OnOk result (meters_in first tally step probes.new.probes.items
        ≡ told_script (job_of machine.old events.now) (meters_in first tally step probes.old.probes.items)) }
    ensures sink { OnErr result (IsBrokenOff (job_of machine.old events.now)
        (ends (C.written console.old) (R.written report.old)) (ends (C.written console.new) (R.written report.new))) }
    ensures applied { OnErr result (KnowApplied (job_of machine.old events.now)
        (meters_in first tally step probes.old.probes.items)
        (ends (C.written console.old) (R.written report.old)) (ends (C.written console.new) (R.written report.new))
        (meters_in first tally step probes.new.probes.items)) }
    ensures console_later { C.faults console.old ≤ C.faults console.new }
    ensures report_later { R.faults report.old ≤ R.faults report.new }
    ensures cause { OnErr result
        (Rose (C.faults console.old) (C.faults console.new) ⊎ Rose (R.faults report.old) (R.faults report.new)) }
{
    let showing = Showing {
        report: ReportKind::Summary,
        watch: None,
    };
    put_turns(machine, line, 0, events, &showing, probes, console, report)?;
    save(line, machine, report)
}

/// Applies the events in order, tells each to every probe and puts the released bytes to the console; then puts the machine's
/// recovery point to the report.
pub fn replay_saved<C: Sink, R: Sink>(
    alloc: Global,
    job: SavedReplay,
    probes: &mut ProbeSet,
    console: &mut C,
    report: &mut R,
) -> Result<(), ReplayFault>
    requires { MaySave job }

    // All events are applied and told, and the point is saved.
    ensures ok { OnOk result (IsDone job
        (ends (C.written console.old) (R.written report.old)) (ends (C.written console.new) (R.written report.new))) }
    ensures told { OnOk result (meters_in first tally step probes.new.probes.items
        ≡ told_script job (meters_in first tally step probes.old.probes.items)) }

    // A sink broke, and the probes were told just the events that were applied.
    ensures sink { result ≡ Err ReplayFault.Sink → IsBrokenOff job
        (ends (C.written console.old) (R.written report.old)) (ends (C.written console.new) (R.written report.new)) }
    ensures applied { result ≡ Err ReplayFault.Sink → KnowApplied job (meters_in first tally step probes.old.probes.items)
        (ends (C.written console.old) (R.written report.old)) (ends (C.written console.new) (R.written report.new))
        (meters_in first tally step probes.new.probes.items) }

    // Memory was lacking, and nothing is done.
    ensures memory { result ≡ Err ReplayFault.Memory →
        (console.new ≡ console.old) × (report.new ≡ report.old) × (probes.new ≡ probes.old) }
    ensures console_later { C.faults console.old ≤ C.faults console.new }
    ensures report_later { R.faults report.old ≤ R.faults report.new }
    ensures cause { result ≡ Err ReplayFault.Sink
        → Rose (C.faults console.old) (C.faults console.new) ⊎ Rose (R.faults report.old) (R.faults report.new) }
{
    let SavedReplay {
        program,
        config,
        script,
    } = job;
    let events = script.events();
    let Ok(mut line) = Line::new(alloc) else {
        return Err(ReplayFault::Memory);
    };
    let Ok(mut machine) = Machine::with_room(alloc, program, config, events.len() as u32) else {
        return Err(ReplayFault::Memory);
    };
    let put = put_all(&mut machine, &mut line, events, probes, console, report);
    drop(machine);
    match put {
        Ok(()) => Ok(()),
        Err(_) => Err(ReplayFault::Sink),
    }
}
