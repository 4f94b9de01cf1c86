//! A generated run, replayed.
ghost use Rattle.std.specs.Prelude.{◌≡◌, ◌≤◌, ◌⊎◌, OnOk, Err};
ghost use Rattle.sn_io.specs.Outside.{Rose};
ghost use Rattle.sink_pieces.specs.Pieces.{ends};
ghost use Rattle.sn_probe.specs.Probes.{meters_in};
ghost use Rattle.script_replay.specs.Played.{IsWatchable};
ghost use Rattle.script_replay.specs.Probed.{told_all};
ghost use Rattle.script_replay.specs.Shown.{IsReplayed, IsBrokenOff, KnowApplied};
ghost use Rattle.generated_runs.specs.Generated.{generated_replay};
ghost use Rattle.sn_base.specs.declared.limits.TheConstants.{EVENTS};

use crate::schedule::Generated;
use crate::starting::start;
use script_replay::{ReplayFault, Showing, replay_on};
use sn_io::Sink;
use sn_probe::ProbeSet;
use std::alloc::Global;

/// What `replay` does of the counting program and the events of a run of this size. No event is kept: each is found, applied once,
/// told and put before the next is found.
pub fn replay_generated<C: Sink, R: Sink>(
    alloc: Global,
    size: u32,
    showing: Showing,
    probes: &mut ProbeSet,
    console: &mut C,
    report: &mut R,
) -> Result<(), ReplayFault>
    requires few { size ≤ EVENTS }
    requires watched { IsWatchable showing.watch }
    ensures ok { OnOk result (IsReplayed (generated_replay size showing) (meters_in first tally step probes.old.probes.items)
        (ends (C.written console.old) (R.written report.old)) (ends (C.written console.new) (R.written report.new))) }
    ensures told { OnOk result (meters_in first tally step probes.new.probes.items
        ≡ told_all (generated_replay size showing) (meters_in first tally step probes.old.probes.items)) }
    ensures sink { result ≡ Err ReplayFault.Sink →
        IsBrokenOff (generated_replay size showing) (meters_in first tally step probes.old.probes.items)
        (ends (C.written console.old) (R.written report.old)) (ends (C.written console.new) (R.written report.new)) }
    ensures applied { result ≡ Err ReplayFault.Sink →
        KnowApplied (generated_replay size showing) (meters_in first tally step probes.old.probes.items)
        (ends (C.written console.old) (R.written report.old)) (ends (C.written console.new) (R.written report.new))
        (meters_in first tally step probes.new.probes.items) }
    ensures memory { result ≡ Err ReplayFault.Memory →
        (console.new ≡ console.old) × (report.new ≡ report.old) × (probes.new ≡ probes.old) }
    ensures cause { result ≡ Err ReplayFault.Sink
        → Rose (C.faults console.old) (C.faults console.new) ⊎ Rose (R.faults report.old) (R.faults report.new) }
{
    let Ok(machine) = start(alloc, size) else {
        return Err(ReplayFault::Memory);
    };
    let schedule = Generated::new(size);
    replay_on(alloc, machine, schedule, showing, probes, console, report)
}
