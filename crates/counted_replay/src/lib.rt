//! A replay whose run is counted: what a replay puts, and behind the summary the run's statistics.
//!
//! The layer above knows it as a list of pieces: those of the replay, and one more that is a function of the program, the machine's
//! sizes and the events. The run is counted before the first event is put, so that want of memory comes before all that is
//! written. Nothing here knows words, files or statuses.
#![tactic(auto)]

ghost use Rattle.std.specs.Prelude.{◌≡◌, ◌⊎◌, OnOk, Err};
ghost use Rattle.sn_io.specs.Outside.{Rose};
ghost use Rattle.sink_pieces.specs.Pieces.{ends};
ghost use Rattle.sn_probe.specs.Probes.{meters_in};
ghost use Rattle.script_replay.specs.Played.{MayBegin};
ghost use Rattle.script_replay.specs.Probed.{told_all};
ghost use Rattle.counted_replay.specs.Shown.{IsCounted, IsBrokenOff, KnowApplied};

use run_statistics::statistics_text;
use script_replay::{Replay, ReplayFault, replay};
use sink_pieces::put_report;
use sn_io::Sink;
use sn_probe::ProbeSet;
use std::alloc::Global;

/// Applies the events as a replay does, and puts the statistics of their run behind its summary.
pub fn replay_counted<C: Sink, R: Sink>(
    alloc: Global,
    job: Replay,
    probes: &mut ProbeSet,
    console: &mut C,
    report: &mut R,
) -> Result<(), ReplayFault>
    requires { MayBegin job }

    // All events are applied and told, and all pieces are put.
    ensures ok { OnOk result (IsCounted job (meters_in first tally step probes.old.probes.items)
        (ends (C.written console.old) (R.written report.old)) (ends (C.written console.new) (R.written report.new))) }
    ensures told { OnOk result (meters_in first tally step probes.new.probes.items
        ≡ told_all job (meters_in first tally step probes.old.probes.items)) }

    // A sink broke, and the probes were told just the events that were applied.
    ensures sink { result ≡ Err ReplayFault.Sink → IsBrokenOff job (meters_in first tally step probes.old.probes.items)
        (ends (C.written console.old) (R.written report.old)) (ends (C.written console.new) (R.written report.new)) }
    ensures applied { result ≡ Err ReplayFault.Sink → KnowApplied job (meters_in first tally step probes.old.probes.items)
        (ends (C.written console.old) (R.written report.old)) (ends (C.written console.new) (R.written report.new))
        (meters_in first tally step probes.new.probes.items) }

    // Memory was lacking, and nothing is done.
    ensures memory { result ≡ Err ReplayFault.Memory →
        (console.new ≡ console.old) × (report.new ≡ report.old) × (probes.new ≡ probes.old) }
    ensures cause { result ≡ Err ReplayFault.Sink
        → Rose (C.faults console.old) (C.faults console.new) ⊎ Rose (R.faults report.old) (R.faults report.new) }
{
    let Ok(text) = statistics_text(alloc, &job.program, job.config, job.script.events()) else {
        drop(job);
        return Err(ReplayFault::Memory);
    };
    match replay(alloc, job, probes, console, report) {
        Ok(()) => {}
        Err(fault) => return Err(fault),
    }
    match put_report(report, text.as_slice()) {
        Ok(()) => Ok(()),
        Err(_) => Err(ReplayFault::Sink),
    }
}
