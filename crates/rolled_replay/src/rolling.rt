//! A replay with its recovery, from the job to the summary.
ghost use Rattle.std.specs.Prelude.{◌≡◌, ℕ, ◌≤◌, ◌⊎◌, List, [], true, Option, Err, OnOk, OnErr, length};
ghost use Rattle.std.specs.List.{All};
ghost use Rattle.sn_io.specs.Outside.{Rose};
ghost use Rattle.sink_pieces.specs.Pieces.{ends, after, Breaks};
ghost use Rattle.sn_probe.specs.Probes.{meters_in, tallies_of};
ghost use Rattle.script_replay.specs.Pieces.{summary_pieces};
ghost use Rattle.script_replay.specs.Played.{IsWatchable};
ghost use Rattle.rolling_recovery.specs.Controls.{control_fits};
ghost use Rattle.rolling_recovery.specs.Rolling.{rolling_start};
ghost use Rattle.rolled_replay.specs.Stages.{IsNumbered, machine_of};
ghost use Rattle.rolled_replay.specs.Pieces.{machine_for, recovery_pieces};
ghost use Rattle.rolled_replay.specs.Rolled.{MayRoll, roll_of, told_script, IsRolled, IsBrokenOff, KnowApplied};
ghost use Rattle.sn_base.specs.declared.limits.TheConstants.{EVENTS};

use crate::job::Roll;
use crate::leading::{Ready, RollFault, put_controls, put_events, ready_for};
use crate::stage::Stage;
use rolling_recovery::{Control, Rolling};
use script_replay::put_counted_summary;
use sn_base::Event;
use sn_io::{Failed, Sink};
use sn_probe::ProbeSet;
use sn_text::Line;
use std::alloc::Global;

// Puts the summary of so many events and of the machine that the controls left.
fn put_end<R: Sink>(
    last: &Stage,
    line: &mut Line,
    events: u64,
    watch: Option<u32>,
    probes: &ProbeSet,
    report: &mut R,
) -> Result<(), Failed>
    requires watched { IsWatchable watch }
    ensures ok { OnOk result ((c : Option (List ℕ)) → ends c (R.written report.new) ≡ after (ends c (R.written report.old))
        (summary_pieces [] (machine_of last.now).image (machine_of last.now).config watch
        (tallies_of (meters_in first tally step probes.now.probes.items)) events (machine_of last.now).state)) }
    ensures err { OnErr result ((c : Option (List ℕ)) →
        Breaks (summary_pieces [] (machine_of last.now).image (machine_of last.now).config watch
        (tallies_of (meters_in first tally step probes.now.probes.items)) events (machine_of last.now).state)
        (ends c (R.written report.old)) (ends c (R.written report.new))) }
    ensures later { R.faults report.old ≤ R.faults report.new }
    ensures cause { OnErr result (Rose (R.faults report.old) (R.faults report.new)) }
{
    put_counted_summary(line, "", events, last.machine(), watch, probes, report)
}

// Leads the recovery and puts its pieces.
fn put_recovery<R: Sink>(
    stage: Stage,
    line: &mut Line,
    controls: &[Control],
    events: u64,
    watch: Option<u32>,
    probes: &ProbeSet,
    report: &mut R,
) -> Result<(), Failed>
    requires fit { All (λ call. control_fits (machine_of stage).config.nodes call ≡ true) controls.now }
    requires few { length controls.now ≤ EVENTS }
    requires numbers { IsNumbered stage 1 }
    requires watched { IsWatchable watch }
    ensures ok { OnOk result ((c : Option (List ℕ)) → ends c (R.written report.new) ≡ after (ends c (R.written report.old))
        (recovery_pieces stage controls.now watch (tallies_of (meters_in first tally step probes.now.probes.items)) events)) }
    ensures err { OnErr result ((c : Option (List ℕ)) →
        Breaks (recovery_pieces stage controls.now watch (tallies_of (meters_in first tally step probes.now.probes.items)) events)
        (ends c (R.written report.old)) (ends c (R.written report.new))) }
    ensures later { R.faults report.old ≤ R.faults report.new }
    ensures cause { OnErr result (Rose (R.faults report.old) (R.faults report.new)) }
{
    match put_controls(stage, line, controls, report) {
        Ok(last) => {
            let put = put_end(&last, line, events, watch, probes, report);
            drop(last);
            put
        }
        Err(_) => Err(Failed),
    }
}

// Leads the recovery of the machine that events left, and puts its pieces.
fn put_rest<R: Sink>(
    ready: Ready,
    controls: &[Control],
    events: u64,
    watch: Option<u32>,
    probes: &ProbeSet,
    report: &mut R,
) -> Result<(), Failed>
    requires room { 1 ≤ ready.machine.spare }
    requires fit { All (λ call. control_fits ready.machine.config.nodes call ≡ true) controls.now }
    requires few { length controls.now ≤ EVENTS }
    requires watched { IsWatchable watch }
    ensures ok { OnOk result ((c : Option (List ℕ)) → ends c (R.written report.new) ≡ after (ends c (R.written report.old))
        (recovery_pieces (Stage.UnderWay (rolling_start ready.machine)) controls.now watch
        (tallies_of (meters_in first tally step probes.now.probes.items)) events)) }
    ensures err { OnErr result ((c : Option (List ℕ)) →
        Breaks (recovery_pieces (Stage.UnderWay (rolling_start ready.machine)) controls.now watch
        (tallies_of (meters_in first tally step probes.now.probes.items)) events)
        (ends c (R.written report.old)) (ends c (R.written report.new))) }
    ensures later { R.faults report.old ≤ R.faults report.new }
    ensures cause { OnErr result (Rose (R.faults report.old) (R.faults report.new)) }
{
    let Ready {
        machine,
        mut line,
        room,
    } = ready;
    let stage = Stage::UnderWay(Rolling::start(room, machine));
    put_recovery(stage, &mut line, controls, events, watch, probes, report)
}

// All but taking the memory: the events, the recovery of the machine that they leave, and the summary.
fn put_all<C: Sink, R: Sink>(
    ready: Ready,
    events: &[Event],
    controls: &[Control],
    watch: Option<u32>,
    probes: &mut ProbeSet,
    console: &mut C,
    report: &mut R,
) -> Result<(), Failed>
    requires start { ready.machine ≡ machine_for ready.machine.image ready.machine.config events.now }
    requires may { MayRoll (roll_of ready.machine watch events.now controls.now) }
    ensures ok { OnOk result (IsRolled (roll_of ready.machine watch events.now controls.now)
        (meters_in first tally step probes.old.probes.items)
        (ends (C.written console.old) (R.written report.old)) (ends (C.written console.new) (R.written report.new))) }
    ensures told { OnOk result (meters_in first tally step probes.new.probes.items
        ≡ told_script (roll_of ready.machine watch events.now controls.now) (meters_in first tally step probes.old.probes.items)) }
    ensures sink { OnErr result (IsBrokenOff (roll_of ready.machine watch events.now controls.now)
        (meters_in first tally step probes.old.probes.items)
        (ends (C.written console.old) (R.written report.old)) (ends (C.written console.new) (R.written report.new))) }
    ensures applied { OnErr result (KnowApplied (roll_of ready.machine watch events.now controls.now)
        (meters_in first tally step probes.old.probes.items)
        (ends (C.written console.old) (R.written report.old)) (ends (C.written console.new) (R.written report.new))
        (meters_in first tally step probes.new.probes.items)) }
    ensures console_later { C.faults console.old ≤ C.faults console.new }
    ensures report_later { R.faults report.old ≤ R.faults report.new }
    ensures cause { OnErr result
        (Rose (C.faults console.old) (C.faults console.new) ⊎ Rose (R.faults report.old) (R.faults report.new)) }
{
    let mut ready = ready;
    let count = events.len() as u64;
    match put_events(
        &mut ready.machine,
        &mut ready.line,
        events,
        watch,
        probes,
        console,
        report,
    ) {
        Ok(()) => put_rest(ready, controls, count, watch, probes, report),
        Err(_) => {
            drop(ready);
            Err(Failed)
        }
    }
}

/// Applies the script's events in order, tells each to every probe and puts the released bytes to the console; then leads the
/// recovery of the machine that they leave, and puts each control's line and the summary to the report.
pub fn roll<C: Sink, R: Sink>(
    alloc: Global,
    job: Roll,
    probes: &mut ProbeSet,
    console: &mut C,
    report: &mut R,
) -> Result<(), RollFault>
    requires { MayRoll job }

    // All events are applied and told, all controls are answered, and all pieces are put.
    ensures ok { OnOk result (IsRolled job (meters_in first tally step probes.old.probes.items)
        (ends (C.written console.old) (R.written report.old)) (ends (C.written console.new) (R.written report.new))) }
    ensures told { OnOk result (meters_in first tally step probes.new.probes.items
        ≡ told_script job (meters_in first tally step probes.old.probes.items)) }

    // A sink broke, and the probes were told just the events that were applied.
    ensures sink { result ≡ Err RollFault.Sink → IsBrokenOff job (meters_in first tally step probes.old.probes.items)
        (ends (C.written console.old) (R.written report.old)) (ends (C.written console.new) (R.written report.new)) }
    ensures applied { result ≡ Err RollFault.Sink → KnowApplied job (meters_in first tally step probes.old.probes.items)
        (ends (C.written console.old) (R.written report.old)) (ends (C.written console.new) (R.written report.new))
        (meters_in first tally step probes.new.probes.items) }

    // Memory was lacking, and nothing is done.
    ensures memory { result ≡ Err RollFault.Memory →
        (console.new ≡ console.old) × (report.new ≡ report.old) × (probes.new ≡ probes.old) }
    ensures cause { result ≡ Err RollFault.Sink
        → Rose (C.faults console.old) (C.faults console.new) ⊎ Rose (R.faults report.old) (R.faults report.new) }
    ensures console_later { C.faults console.old ≤ C.faults console.new }
    ensures report_later { R.faults report.old ≤ R.faults report.new }
{
    let Roll {
        program,
        config,
        watch,
        script,
        controls,
    } = job;
    let events = script.events();
    let Some(ready) = ready_for(alloc, program, config, events.len() as u32) else {
        return Err(RollFault::Memory);
    };
    match put_all(
        ready,
        events,
        controls.controls(),
        watch,
        probes,
        console,
        report,
    ) {
        Ok(()) => Ok(()),
        Err(_) => Err(RollFault::Sink),
    }
}
