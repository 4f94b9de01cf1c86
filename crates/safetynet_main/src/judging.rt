//! Accesses judged by themselves, and the text of the verdict.
ghost use Rattle.std.specs.Prelude.{◌≡◌, ◌≢◌, ℕ, List, Option, Ok, Err, false};
ghost use Rattle.sn_io.specs.Outside.{Rose};
ghost use Rattle.sn_probe.specs.Probes.{Meter};
ghost use Rattle.sink_pieces.specs.Pieces.{ends};
ghost use Rattle.safetynet_main.specs.Outcome.{access_status};
ghost use Rattle.call_status.specs.Status.{has_written};
ghost use Rattle.safetynet_main.specs.Call.{Follows, IsRead};

use crate::job::Job;
use access_check::Verdict;
use access_texts::{AccessList, JudgeFault, judge_list};
use call_status::Status;
use sn_io::Sink;
use std::alloc::Global;

fn status_of(verdict: Verdict) -> Status
    ensures { result ≡ access_status verdict }
{
    match verdict {
        Verdict::Legal => Status::Done,
        Verdict::Refused(refusal) => Status::Refused(refusal.place),
    }
}

/// Judges the accesses, and puts the verdict's text.
pub fn judge<R: Sink>(alloc: Global, list: &AccessList, report: &mut R) -> Status
    requires { IsRead (Job.Judge list.now) }
    ensures follows { result ≢ Status.Memory → (probes : List Meter) (was is : ℕ) (c : Option (List ℕ)) →
        Follows probes (Ok (Job.Judge list.now)) result was is
        (ends c (R.written report.old)) (ends c (R.written report.new)) }
    ensures nothing { has_written result ≡ false → report.new ≡ report.old }
    ensures cause { result ≡ Status.SinkFault → Rose (R.faults report.old) (R.faults report.new) }
{
    match judge_list(alloc, list, report) {
        Ok(verdict) => status_of(verdict),
        Err(JudgeFault::Sink(_)) => Status::SinkFault,
        Err(JudgeFault::Memory) => Status::Memory,
        Err(JudgeFault::Refused(_)) => unreachable!(),
    }
}
