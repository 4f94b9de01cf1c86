//! A whole replay: all memory first, and then the events.
ghost use Rattle.std.specs.Prelude.{◌≡◌, ◌≤◌, ◌⊎◌, length, OnOk, Err};
ghost use Rattle.sn_io.specs.Outside.{Rose};
ghost use Rattle.sink_pieces.specs.Pieces.{ends};
ghost use Rattle.sn_probe.specs.Probes.{meters_in};
ghost use Rattle.script_replay.specs.Played.{MayBegin, IsAtStart};
ghost use Rattle.script_replay.specs.Probed.{told_all};
ghost use Rattle.script_replay.specs.Scheduled.{left_on, replay_of};
ghost use Rattle.script_replay.specs.Shown.{IsReplayed, IsBrokenOff, KnowApplied};

use crate::job::{Replay, Showing};
use crate::play::play;
use crate::schedule::{Listed, Schedule};
use due_events::sn_machine::Machine;
use sn_io::Sink;
use sn_probe::ProbeSet;
use std::alloc::Global;

/// Why a replay didn't come to its end.
#[derive(Clone, Copy, PartialEq, Eq, Debug)]
pub enum ReplayFault {
    /// A sink took less than the whole of a piece.
    Sink,
    /// Memory was wanted and not given. No event was applied.
    Memory,
}

/// Applies the events of a schedule on a machine that is at its program's start, tells each to every probe, puts the released
/// bytes to the console, and puts what is to be shown to the report: the replay of the events that are left on the machine.
pub fn replay_on<S: Schedule, C: Sink, R: Sink>(
    alloc: Global,
    machine: Machine,
    schedule: S,
    showing: Showing,
    probes: &mut ProbeSet,
    console: &mut C,
    report: &mut R,
) -> Result<(), ReplayFault>
    requires ready { IsAtStart machine machine.image machine.config (length (left_on (S.left schedule) machine)) }
    requires serves { S.serves schedule machine.config.nodes }
    requires begin { MayBegin (replay_of machine showing (left_on (S.left schedule) machine)) }
    ensures ok { OnOk result (IsReplayed (replay_of machine showing (left_on (S.left schedule) machine))
        (meters_in first tally step probes.old.probes.items)
        (ends (C.written console.old) (R.written report.old)) (ends (C.written console.new) (R.written report.new))) }
    ensures told { OnOk result (meters_in first tally step probes.new.probes.items
        ≡ told_all (replay_of machine showing (left_on (S.left schedule) machine))
        (meters_in first tally step probes.old.probes.items)) }
    ensures sink { result ≡ Err ReplayFault.Sink → IsBrokenOff (replay_of machine showing (left_on (S.left schedule) machine))
        (meters_in first tally step probes.old.probes.items)
        (ends (C.written console.old) (R.written report.old)) (ends (C.written console.new) (R.written report.new)) }
    ensures applied { result ≡ Err ReplayFault.Sink → KnowApplied (replay_of machine showing (left_on (S.left schedule) machine))
        (meters_in first tally step probes.old.probes.items)
        (ends (C.written console.old) (R.written report.old)) (ends (C.written console.new) (R.written report.new))
        (meters_in first tally step probes.new.probes.items) }
    ensures memory { result ≡ Err ReplayFault.Memory →
        (console.new ≡ console.old) × (report.new ≡ report.old) × (probes.new ≡ probes.old) }
    ensures console_later { C.faults console.old ≤ C.faults console.new }
    ensures report_later { R.faults report.old ≤ R.faults report.new }
    ensures cause { result ≡ Err ReplayFault.Sink
        → Rose (C.faults console.old) (C.faults console.new) ⊎ Rose (R.faults report.old) (R.faults report.new) }
{
    let mut machine = machine;
    let mut schedule = schedule;
    let put = play(
        alloc,
        &mut machine,
        &mut schedule,
        &showing,
        probes,
        console,
        report,
    );
    drop(machine);
    put
}

/// Applies the events in order, tells each to every probe, puts the released bytes to the console, and puts what is to be
/// shown to the report.
pub fn replay<C: Sink, R: Sink>(
    alloc: Global,
    job: Replay,
    probes: &mut ProbeSet,
    console: &mut C,
    report: &mut R,
) -> Result<(), ReplayFault>
    requires { MayBegin job }

    // All events are applied and told, and all pieces are put.
    ensures ok { OnOk result (IsReplayed job (meters_in first tally step probes.old.probes.items)
        (ends (C.written console.old) (R.written report.old)) (ends (C.written console.new) (R.written report.new))) }
    ensures told { OnOk result (meters_in first tally step probes.new.probes.items
        ≡ told_all job (meters_in first tally step probes.old.probes.items)) }

    // A sink broke, and the probes were told just the events that were applied.
    ensures sink { result ≡ Err ReplayFault.Sink → IsBrokenOff job (meters_in first tally step probes.old.probes.items)
        (ends (C.written console.old) (R.written report.old)) (ends (C.written console.new) (R.written report.new)) }
    ensures applied { result ≡ Err ReplayFault.Sink → KnowApplied job (meters_in first tally step probes.old.probes.items)
        (ends (C.written console.old) (R.written report.old)) (ends (C.written console.new) (R.written report.new))
        (meters_in first tally step probes.new.probes.items) }

    // Memory was lacking, and nothing is done.
    ensures memory { result ≡ Err ReplayFault.Memory →
        (console.new ≡ console.old) × (report.new ≡ report.old) × (probes.new ≡ probes.old) }
    ensures console_later { C.faults console.old ≤ C.faults console.new }
    ensures report_later { R.faults report.old ≤ R.faults report.new }
    ensures cause { result ≡ Err ReplayFault.Sink
        → Rose (C.faults console.old) (C.faults console.new) ⊎ Rose (R.faults report.old) (R.faults report.new) }
{
    let Replay {
        program,
        config,
        showing,
        script,
    } = job;
    let events = script.events();
    let Ok(machine) = Machine::with_room(alloc, program, config, events.len() as u32) else {
        return Err(ReplayFault::Memory);
    };
    replay_on(
        alloc,
        machine,
        Listed::new(events),
        showing,
        probes,
        console,
        report,
    )
}
