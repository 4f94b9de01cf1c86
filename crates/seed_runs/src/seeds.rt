//! Runs for each seed of a range.
ghost use Rattle.std.specs.Prelude.{◌≡◌, ◌⊎◌, ◌<◌, ◌≤◌, OnOk, Err};
ghost use Rattle.sn_io.specs.Outside.{Rose};
ghost use Rattle.sink_pieces.specs.Pieces.{ends};
ghost use Rattle.seed_runs.specs.Shown.{MayBegin, AreShown, AreBrokenOff, AreLeftOff};

use crate::group::run_group;
use crate::job::{SeedRuns, SeedsFault};
use rayon::current_num_threads;
use sn_io::Sink;
use sn_probe::ProbeSet;
use std::alloc::Global;
use std::thread::Threads;

// How many runs have their turns side by side. Each has memory of its own, so there are few.
fn runs_at_once<T: Threads>(rt: &T) -> u64
    ensures some { 0 < result }
    ensures few { result ≤ 4 }
{
    current_num_threads(rt).min(4) as u64
}

/// Runs the program with each seed of the range, from the first to the last, each in this order up to its run's end, and puts a
/// block a seed: to the console what its run releases, to the report its line, its summary, its statistics where they are asked for,
/// and how it ended. As many runs as there are processors have their turns side by side, at most four. No probe is told of them.
pub fn run_seeds<T: Threads + Sync, C: Sink, R: Sink>(
    rt: &T,
    alloc: Global,
    job: SeedRuns,
    console: &mut C,
    report: &mut R,
) -> Result<(), SeedsFault>
    requires { MayBegin job }

    // All blocks are put, each of a run that came to its end.
    ensures ok { OnOk result (AreShown job
        (ends (C.written console.old) (R.written report.old)) (ends (C.written console.new) (R.written report.new))) }

    // A sink broke in one of them.
    ensures sink { result ≡ Err SeedsFault.Sink → AreBrokenOff job
        (ends (C.written console.old) (R.written report.old)) (ends (C.written console.new) (R.written report.new)) }

    // Memory was lacking for the run of a seed: the blocks before it are put whole, and nothing of it is.
    ensures memory { result ≡ Err SeedsFault.Memory → AreLeftOff job
        (ends (C.written console.old) (R.written report.old)) (ends (C.written console.new) (R.written report.new)) }
    ensures cause { result ≡ Err SeedsFault.Sink
        → Rose (C.faults console.old) (C.faults console.new) ⊎ Rose (R.faults report.old) (R.faults report.new) }
    ensures console_later { C.faults console.old ≤ C.faults console.new }
    ensures report_later { R.faults report.old ≤ R.faults report.new }
{
    let none = ProbeSet::new(Vec::new(alloc));
    let seeds = job.last - job.first + 1;
    let at_once = runs_at_once(rt);
    let mut place = 0u64;
    'groups: while place < seeds {
        let first = job.first + place;
        let count = at_once.min(seeds - place) as usize;
        match run_group(rt, alloc, &job, first, count, &none, console, report) {
            Ok(done) => place += done as u64,
            Err(fault) => return Err(fault),
        }
    }
    Ok(())
}
