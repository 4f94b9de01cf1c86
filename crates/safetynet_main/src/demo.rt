//! A generated run. It needs no file, and none of its events is kept: each is found once those before it are applied.
ghost use Rattle.std.specs.Prelude.{◌≡◌, ◌≢◌, ◌⊎◌, true, false};
ghost use Rattle.sn_base.specs.Config.{lies_in};
ghost use Rattle.sn_io.specs.Outside.{Rose};
ghost use Rattle.sn_probe.specs.Probes.{meters_in};
ghost use Rattle.sink_pieces.specs.Pieces.{ends};
ghost use Rattle.asm_texts.specs.Texts.{words_text};
ghost use Rattle.counting_program.specs.Program.{counting_words};
ghost use Rattle.call_files.specs.Files.{program_of};
ghost use Rattle.call_status.specs.Status.{has_written};
ghost use Rattle.safetynet_main.specs.Call.{generated_job, Follows};
ghost use Rattle.sn_base.specs.declared.limits.TheConstants.{EVENTS};

use call_status::Status;
use generated_runs::replay_generated;
use script_replay::{ReplayFault, ReportKind, Showing};
use sn_io::Sink;
use sn_probe::ProbeSet;
use std::alloc::Global;

/// Does what is due for a run of so many events. Its program is the one that the loader reads in the program's text.
pub fn demo<C: Sink, R: Sink>(
    alloc: Global,
    size: u32,
    console: &mut C,
    report: &mut R,
    probes: &mut ProbeSet,
) -> Status
    requires { lies_in 1 EVENTS size ≡ true }
    ensures follows { result ≢ Status.Memory → Follows (meters_in first tally step probes.old.probes.items)
        (generated_job size (program_of (words_text counting_words))) result
        (C.faults console.old) (C.faults console.new)
        (ends (C.written console.old) (R.written report.old)) (ends (C.written console.new) (R.written report.new)) }
    ensures nothing { has_written result ≡ false → (console.new ≡ console.old) × (report.new ≡ report.old) }
    ensures cause { result ≡ Status.SinkFault
        → Rose (C.faults console.old) (C.faults console.new) ⊎ Rose (R.faults report.old) (R.faults report.new) }
{
    let showing = Showing {
        report: ReportKind::Summary,
        watch: None,
    };
    match replay_generated(alloc, size, showing, probes, console, report) {
        Ok(()) => Status::Done,
        Err(ReplayFault::Sink) => Status::SinkFault,
        Err(ReplayFault::Memory) => Status::Memory,
    }
}
