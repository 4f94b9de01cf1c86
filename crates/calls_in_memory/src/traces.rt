//! A trace for calls that judge one.
ghost use Rattle.std.specs.Prelude.{◌≤◌};

use safetynet_main::generated_runs::replay_generated;
use script_replay::{ReplayFault, ReportKind, Showing};
use sn_base::Memory;
use sn_io::MemSink;
use sn_probe::ProbeSet;
use std::alloc::Global;

fn sinks(alloc: Global) -> Result<(MemSink, MemSink), Memory> {
    let console = MemSink::with_room(alloc, 10_000)?;
    let report = MemSink::with_room(alloc, 100_000)?;
    Ok((console, report))
}

/// What is shown of a generated run of so many events whose report is the trace. What the trace is, tests look at.
pub fn generated_trace(alloc: Global, size: u32) -> Result<MemSink, ReplayFault>
    requires { size ≤ 1000000 }
{
    let Ok((mut console, mut report)) = sinks(alloc) else {
        return Err(ReplayFault::Memory);
    };
    let mut probes = ProbeSet::new(Vec::new(alloc));
    let showing = Showing {
        report: ReportKind::Trace,
        watch: None,
    };
    replay_generated(alloc, size, showing, &mut probes, &mut console, &mut report)?;
    Ok(report)
}
