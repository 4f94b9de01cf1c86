//! A whole replay with the accesses of its committed trace.
ghost use Rattle.std.specs.Prelude.{◌≡◌, ℕ, ◌≤◌, ◌⊎◌, List, Option, Err, OnOk, OnErr, length};
ghost use Rattle.sn_io.specs.Outside.{Rose};
ghost use Rattle.sink_pieces.specs.Pieces.{ends};
ghost use Rattle.rv_core.specs.Flat.{first_cores};
ghost use Rattle.sn_probe.specs.Probes.{meters_in};
ghost use Rattle.sn_machine.specs.Machine.{machine_with_room};
ghost use Rattle.script_replay.specs.Played.{MayBegin};
ghost use Rattle.script_replay.specs.Probed.{told_all};
ghost use Rattle.script_replay.specs.Scheduled.{replay_of};
ghost use Rattle.accesses_replay.specs.Shown.{IsDone, IsBrokenOff, KnowApplied};

use crate::events::{Ready, put_end, put_events, ready_for};
use script_replay::{Replay, ReplayFault, Showing};
use sn_base::Event;
use sn_io::{Failed, Sink};
use sn_probe::ProbeSet;
use std::alloc::Global;

// All but taking the memory: the events, and what stands at the end.
fn put_all<C: Sink, R: Sink>(
    ready: &mut Ready,
    events: &[Event],
    showing: &Showing,
    probes: &mut ProbeSet,
    console: &mut C,
    report: &mut R,
) -> Result<(), Failed>
    requires start { ready.old.machine ≡ machine_with_room ready.old.machine.image ready.old.machine.config (length events.now) }
    requires rows { ready.old.rows.cores ≡ first_cores ready.old.machine.config.nodes ready.old.machine.image.entry }
    requires may { MayBegin (replay_of ready.old.machine showing.now events.now) }
    ensures ok { OnOk result (IsDone (replay_of ready.old.machine showing.now events.now)
        (meters_in first tally step probes.old.probes.items)
        (ends (C.written console.old) (R.written report.old)) (ends (C.written console.new) (R.written report.new))) }
    ensures told { OnOk result (meters_in first tally step probes.new.probes.items
        ≡ told_all (replay_of ready.old.machine showing.now events.now) (meters_in first tally step probes.old.probes.items)) }
    ensures sink { OnErr result (IsBrokenOff (replay_of ready.old.machine showing.now events.now)
        (meters_in first tally step probes.old.probes.items)
        (ends (C.written console.old) (R.written report.old)) (ends (C.written console.new) (R.written report.new))) }
    ensures applied { OnErr result (KnowApplied (replay_of ready.old.machine showing.now events.now)
        (meters_in first tally step probes.old.probes.items)
        (ends (C.written console.old) (R.written report.old)) (ends (C.written console.new) (R.written report.new))
        (meters_in first tally step probes.new.probes.items)) }
    ensures console_later { C.faults console.old ≤ C.faults console.new }
    ensures report_later { R.faults report.old ≤ R.faults report.new }
    ensures cause { OnErr result
        (Rose (C.faults console.old) (C.faults console.new) ⊎ Rose (R.faults report.old) (R.faults report.new)) }
{
    put_events(
        &mut ready.machine,
        &mut ready.line,
        events,
        showing.watch,
        probes,
        console,
        report,
    )?;
    put_end(
        &mut ready.rows,
        &mut ready.line,
        &ready.machine,
        showing.watch,
        probes,
        report,
    )?;
    Ok(())
}

/// Applies the events in order, tells each to every probe and puts the released bytes to the console; then puts the rows of the
/// committed trace and the summary to the report. Which report the job asks for isn't looked at.
pub fn replay_accesses<C: Sink, R: Sink>(
    alloc: Global,
    job: Replay,
    probes: &mut ProbeSet,
    console: &mut C,
    report: &mut R,
) -> Result<(), ReplayFault>
    requires { MayBegin job }

    // All events are applied and told, and all pieces are put.
    ensures ok { OnOk result (IsDone job (meters_in first tally step probes.old.probes.items)
        (ends (C.written console.old) (R.written report.old)) (ends (C.written console.new) (R.written report.new))) }
    ensures told { OnOk result (meters_in first tally step probes.new.probes.items
        ≡ told_all job (meters_in first tally step probes.old.probes.items)) }

    // A sink broke, and the probes were told just the events that were applied.
    ensures sink { result ≡ Err ReplayFault.Sink → IsBrokenOff job (meters_in first tally step probes.old.probes.items)
        (ends (C.written console.old) (R.written report.old)) (ends (C.written console.new) (R.written report.new)) }
    ensures applied { result ≡ Err ReplayFault.Sink → KnowApplied job (meters_in first tally step probes.old.probes.items)
        (ends (C.written console.old) (R.written report.old)) (ends (C.written console.new) (R.written report.new))
        (meters_in first tally step probes.new.probes.items) }

    // Memory was lacking, and nothing is done.
    ensures memory { result ≡ Err ReplayFault.Memory →
        (console.new ≡ console.old) × (report.new ≡ report.old) × (probes.new ≡ probes.old) }
    ensures cause { result ≡ Err ReplayFault.Sink
        → Rose (C.faults console.old) (C.faults console.new) ⊎ Rose (R.faults report.old) (R.faults report.new) }
    ensures console_later { C.faults console.old ≤ C.faults console.new }
    ensures report_later { R.faults report.old ≤ R.faults report.new }
{
    let Replay {
        program,
        config,
        showing,
        script,
    } = job;
    let events = script.events();
    let Some(mut ready) = ready_for(alloc, program, config, events.len() as u32) else {
        return Err(ReplayFault::Memory);
    };
    let put = put_all(&mut ready, events, &showing, probes, console, report);
    drop(ready);
    match put {
        Ok(()) => Ok(()),
        Err(_) => Err(ReplayFault::Sink),
    }
}
