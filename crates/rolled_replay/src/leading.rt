//! The parts of a replay with its recovery: all memory, the events, and the controls.
ghost use Rattle.std.specs.Prelude.{◌≡◌, ℕ, ◌+◌, ◌^◌, ◌≤◌, ◌⊎◌, List, [], ◌∷◌, true, Option, Err, OnOk, OnErr, IfOk, IfSome, length};
ghost use Rattle.std.specs.List.{All};
ghost use Rattle.sn_base.specs.Config.{config_fits};
ghost use Rattle.sn_machine.specs.Machine.{machine_with_room};
ghost use Rattle.consistent_cuts.specs.Runs.{AllFit};
ghost use Rattle.sn_io.specs.Outside.{Rose};
ghost use Rattle.sink_pieces.specs.Pieces.{Report, ends, after, Breaks};
ghost use Rattle.sn_probe.specs.Probes.{meters_in, tallies_of};
ghost use Rattle.script_replay.specs.Played.{turns_left, told_left, StopsAt, IsWatchable};
ghost use Rattle.rolling_recovery.specs.Controls.{control_fits};
ghost use Rattle.rolled_replay.specs.Stages.{IsNumbered, machine_of, next_stage, reply_to, stage_after};
ghost use Rattle.rolled_replay.specs.Text.{control_line};
ghost use Rattle.rolled_replay.specs.Pieces.{after_events, control_pieces, quietly};
ghost use Rattle.sn_base.specs.declared.limits.TheConstants.{EVENTS};

use crate::lines::write_line;
use crate::stage::Stage;
use rolling_recovery::{Control, Room};
use script_replay::{ReportKind, Showing, turn};
use sink_pieces::put_report;
use sn_base::{Config, Event, Image};
use sn_io::{Failed, Sink};
use sn_machine::Machine;
use sn_probe::ProbeSet;
use sn_text::Line;
use std::alloc::Global;

/// Why a replay with its recovery didn't come to its end.
#[derive(Clone, Copy, PartialEq, Eq, Debug)]
pub enum RollFault {
    /// A sink took less than the whole of a piece.
    Sink,
    /// Memory was wanted and not given. No event was applied.
    Memory,
}

/// All memory of a replay with its recovery.
#[derive(Drop)]
pub struct Ready {
    pub machine: Machine,
    pub line: Line,
    pub room: Room,
}

// A line, and the room of a recovery.
fn room_for(alloc: Global) -> Option<(Line, Room)> {
    let Ok(line) = Line::new(alloc) else {
        return None;
    };
    match Room::new(alloc) {
        Ok(room) => Some((line, room)),
        Err(_) => None,
    }
}

/// A machine of these sizes at the start of the program, with room for so many events and a recovery, and the room of that.
pub fn ready_for(alloc: Global, program: Image, config: Config, events: u32) -> Option<Ready>
    requires sizes { config_fits config ≡ true }
    requires few { events ≤ EVENTS }
    ensures { IfSome result (λ r. r.machine ≡ machine_with_room program config (events + 1)) }
{
    let Some((line, room)) = room_for(alloc) else {
        return None;
    };
    match Machine::with_room(alloc, program, config, events + 1) {
        Ok(machine) => Some(Ready {
            machine,
            line,
            room,
        }),
        Err(_) => {
            drop(room);
            None
        }
    }
}

/// Applies events one after another, tells each to the probes and puts what it releases.
pub fn put_events<C: Sink, R: Sink>(
    machine: &mut Machine,
    line: &mut Line,
    events: &[Event],
    watch: Option<u32>,
    probes: &mut ProbeSet,
    console: &mut C,
    report: &mut R,
) -> Result<(), Failed>
    requires fit { AllFit machine.old.config.nodes events.now }
    requires room { length events.now ≤ machine.old.spare }
    requires watched { IsWatchable watch }
    ensures machine { OnOk result (machine.new ≡ after_events machine.old events.now) }
    ensures told { OnOk result (meters_in first tally step probes.new.probes.items
        ≡ told_left machine.old events.now (meters_in first tally step probes.old.probes.items)) }
    ensures ok { OnOk result (ends (C.written console.new) (R.written report.new)
        ≡ after (ends (C.written console.old) (R.written report.old)) (turns_left machine.old (quietly watch) events.now)) }
    ensures stops { OnErr result ((i : ℕ) × StopsAt machine.old (quietly watch) events.now i
        (ends (C.written console.old) (R.written report.old)) (meters_in first tally step probes.old.probes.items)
        (ends (C.written console.new) (R.written report.new)) (meters_in first tally step probes.new.probes.items)) }
    ensures console_later { C.faults console.old ≤ C.faults console.new }
    ensures report_later { R.faults report.old ≤ R.faults report.new }
    ensures cause { OnErr result
        (Rose (C.faults console.old) (C.faults console.new) ⊎ Rose (R.faults report.old) (R.faults report.new)) }
{
    let showing = Showing {
        report: ReportKind::Summary,
        watch,
    };
    'events: for event in events {
        turn(machine, line, event, &showing, probes, console, report)?;
    }
    Ok(())
}

// What a control leaves of a stage, and its line is put.
fn put_control<R: Sink>(
    stage: Stage,
    line: &mut Line,
    place: u64,
    control: &Control,
    report: &mut R,
) -> Result<Stage, Failed>
    requires fits { control_fits (machine_of stage).config.nodes control.now ≡ true }
    requires numbers { IsNumbered stage (2 ^ 63) }
    ensures stage { IfOk result (λ next. next ≡ next_stage stage control.now) }
    ensures ok { OnOk result ((c : Option (List ℕ)) → ends c (R.written report.new)
        ≡ after (ends c (R.written report.old)) (Report (control_line place control.now (reply_to stage control.now)) ∷ [])) }
    ensures err { OnErr result ((c : Option (List ℕ)) →
        Breaks (Report (control_line place control.now (reply_to stage control.now)) ∷ [])
        (ends c (R.written report.old)) (ends c (R.written report.new))) }
    ensures later { R.faults report.old ≤ R.faults report.new }
    ensures cause { OnErr result (Rose (R.faults report.old) (R.faults report.new)) }
{
    let (next, reply) = stage.control(control);
    write_line(line, place, control, &reply);
    match put_report(report, line.bytes()) {
        Ok(()) => Ok(next),
        Err(_) => {
            drop(next);
            Err(Failed)
        }
    }
}

/// Leads the recovery, and puts each control's line.
pub fn put_controls<R: Sink>(
    stage: Stage,
    line: &mut Line,
    controls: &[Control],
    report: &mut R,
) -> Result<Stage, Failed>
    requires fit { All (λ call. control_fits (machine_of stage).config.nodes call ≡ true) controls.now }
    requires few { length controls.now ≤ EVENTS }
    requires numbers { IsNumbered stage 1 }
    ensures stage { IfOk result (λ last. last ≡ stage_after stage controls.now) }
    ensures ok { OnOk result ((c : Option (List ℕ)) → ends c (R.written report.new)
        ≡ after (ends c (R.written report.old)) (control_pieces 0 stage controls.now)) }
    ensures err { OnErr result ((c : Option (List ℕ)) → Breaks (control_pieces 0 stage controls.now)
        (ends c (R.written report.old)) (ends c (R.written report.new))) }
    ensures later { R.faults report.old ≤ R.faults report.new }
    ensures cause { OnErr result (Rose (R.faults report.old) (R.faults report.new)) }
{
    let mut stage = stage;
    let mut place = 0u64;
    'controls: for control in controls {
        place += 1;
        stage = put_control(stage, line, place, control, report)?;
    }
    Ok(stage)
}
