//! A trace judged, and the line that says how.
ghost use Rattle.std.specs.Prelude.{◌≡◌, ◌≢◌, ℕ, ◌≤◌, List, [], ◌∷◌, Option, IfOk, OnOk, OnErr, Ok, false};
ghost use Rattle.sn_io.specs.Outside.{Rose};
ghost use Rattle.sn_probe.specs.Probes.{Meter};
ghost use Rattle.sink_pieces.specs.Pieces.{Report, ends, after, Breaks};
ghost use Rattle.safetynet_main.specs.Outcome.{IsVerdict, verdict_line};
ghost use Rattle.call_status.specs.Status.{has_written};
ghost use Rattle.safetynet_main.specs.Call.{Follows, IsRead};

use crate::job::{Check, Job, Verdict};
use call_status::Status;
use sink_pieces::put_report;
use sn_base::Memory;
use sn_io::{Failed, Gate, Sink};
use sn_text::Line;
use std::alloc::Global;
use std::thread::Threads;
use trace_check::CheckFault;

// What is found of the trace.
fn judge<T: Threads + Sync, G: Gate + Sync>(
    rt: &T,
    alloc: Global,
    job: &Check,
    gate: &G,
) -> Result<Verdict, Memory>
    requires some { 1 ≤ job.now.nodes }
    requires few { job.now.nodes ≤ 16 }
    ensures { IfOk result (λ verdict. IsVerdict job.now verdict) }
{
    let records = job.trace.records();
    match trace_check::check(rt, alloc, &job.program, job.nodes, records, gate) {
        Ok(()) => Ok(Verdict::Legal),
        Err(CheckFault::NotLegal(place)) => Ok(Verdict::Refused(place)),
        Err(CheckFault::Memory) => Err(Memory),
    }
}

// Puts the verdict.
fn put_verdict<R: Sink>(
    mut line: Line,
    job: &Check,
    verdict: Verdict,
    report: &mut R,
) -> Result<(), Failed>
    requires { line ≡ [] }
    ensures ok { OnOk result ((c : Option (List ℕ)) →
        ends c (R.written report.new) ≡ after (ends c (R.written report.old)) (Report (verdict_line job.now verdict) ∷ [])) }
    ensures err { OnErr result ((c : Option (List ℕ)) →
        Breaks (Report (verdict_line job.now verdict) ∷ []) (ends c (R.written report.old)) (ends c (R.written report.new))) }
    ensures cause { OnErr result (Rose (R.faults report.old) (R.faults report.new)) }
{
    match verdict {
        Verdict::Legal => line.count("", "legal", job.trace.records().len() as u64),
        Verdict::Refused(place) => line.count("", "refused", place),
    }
    put_report(report, line.bytes())?;
    Ok(())
}

/// Judges the trace, for each core in a thread of its own, and puts the verdict.
pub fn check<T: Threads + Sync, R: Sink, G: Gate + Sync>(
    rt: &T,
    alloc: Global,
    job: &Check,
    report: &mut R,
    gate: &G,
) -> Status
    requires { IsRead (Job.Check job.now) }
    ensures follows { result ≢ Status.Memory → (probes : List Meter) (was is : ℕ) (c : Option (List ℕ)) →
        Follows probes (Ok (Job.Check job.now)) result was is
        (ends c (R.written report.old)) (ends c (R.written report.new)) }
    ensures nothing { has_written result ≡ false → report.new ≡ report.old }
    ensures cause { result ≡ Status.SinkFault → Rose (R.faults report.old) (R.faults report.new) }
{
    let Ok(line) = Line::new(alloc) else {
        return Status::Memory;
    };
    let Ok(verdict) = judge(rt, alloc, job, gate) else {
        return Status::Memory;
    };
    match put_verdict(line, job, verdict, report) {
        Ok(()) => verdict.status(),
        Err(_) => Status::SinkFault,
    }
}
