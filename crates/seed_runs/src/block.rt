//! The run of one seed, and its block.
ghost use Rattle.std.specs.Prelude.{◌≡◌, ◌⊎◌, [], ◌≤◌, IfOk, OnOk, OnErr, Err};
ghost use Rattle.sn_io.specs.Outside.{Rose};
ghost use Rattle.sn_probe.specs.Probes.{meters_in};
ghost use Rattle.sink_pieces.specs.Pieces.{ends, after, Breaks};
ghost use Rattle.seed_runs.specs.Pieces.{run_of, journal_of, seed_pieces};
ghost use Rattle.seed_runs.specs.Played.{IsPlayed};
ghost use Rattle.seed_runs.specs.Shown.{MayBegin};

use crate::job::{SeedRuns, SeedsFault};
use crate::play::{Played, play};
use crate::putting::{put_head, put_run, put_tail};
use ordered_run::node_run::{Run, RunShowing};
use sn_base::{Memory, RunReport, copy_of};
use sn_io::{Failed, Sink};
use sn_probe::ProbeSet;
use std::alloc::Global;

// The run of a seed, with the program once more.
fn run_with(alloc: Global, job: &SeedRuns, seed: u64) -> Result<Run, Memory>
    ensures { IfOk result (λ run. run ≡ run_of job.now seed) }
{
    let program = copy_of(alloc, &job.program)?;
    Ok(Run {
        program,
        config: job.config,
        rules: job.rules,
        seed,
        budget: job.budget,
        showing: RunShowing {
            report: RunReport::Summary,
            watch: job.watch,
        },
    })
}

/// Has all turns of the run of a seed.
pub(crate) fn play_seed(alloc: Global, job: &SeedRuns, seed: u64) -> Result<Played, Memory>
    requires { MayBegin job.now }
    ensures { IfOk result (λ played. IsPlayed (run_of job.now seed) (journal_of job.now seed) job.now.statistics played) }
{
    let order = job.order;
    let run = run_with(alloc, job, seed)?;
    play(alloc, run, order, job.statistics)
}

/// Puts the block of a seed whose run has had its turns. No probe is told of it.
pub(crate) fn put_block<C: Sink, R: Sink>(
    played: &mut Played,
    job: &SeedRuns,
    seed: u64,
    none: &ProbeSet,
    console: &mut C,
    report: &mut R,
) -> Result<(), Failed>
    requires may { MayBegin job.now }
    requires played { IsPlayed (run_of job.now seed) (journal_of job.now seed) job.now.statistics played.old }
    requires alone { meters_in first tally step none.now.probes.items ≡ [] }
    ensures ok { OnOk result (ends (C.written console.new) (R.written report.new)
        ≡ after (ends (C.written console.old) (R.written report.old)) (seed_pieces job.now seed)) }
    ensures err { OnErr result (Breaks (seed_pieces job.now seed)
        (ends (C.written console.old) (R.written report.old)) (ends (C.written console.new) (R.written report.new))) }
    ensures console_later { C.faults console.old ≤ C.faults console.new }
    ensures report_later { R.faults report.old ≤ R.faults report.new }
    ensures cause { OnErr result
        (Rose (C.faults console.old) (C.faults console.new) ⊎ Rose (R.faults report.old) (R.faults report.new)) }
{
    let Played {
        finished,
        statistics,
        room,
    } = played;
    let showing = RunShowing {
        report: RunReport::Summary,
        watch: job.watch,
    };
    put_head(&mut room.line, seed, report)?;
    match put_run(room, finished, &showing, none, console, report) {
        Some(ending) => put_tail(
            &mut room.line,
            &ending,
            job.statistics,
            statistics.as_slice(),
            report,
        ),
        None => Err(Failed),
    }
}

/// Runs a seed, and puts its block.
pub(crate) fn run_seed<C: Sink, R: Sink>(
    alloc: Global,
    job: &SeedRuns,
    seed: u64,
    none: &ProbeSet,
    console: &mut C,
    report: &mut R,
) -> Result<(), SeedsFault>
    requires may { MayBegin job.now }
    requires alone { meters_in first tally step none.now.probes.items ≡ [] }
    ensures ok { OnOk result (ends (C.written console.new) (R.written report.new)
        ≡ after (ends (C.written console.old) (R.written report.old)) (seed_pieces job.now seed)) }
    ensures sink { result ≡ Err SeedsFault.Sink → Breaks (seed_pieces job.now seed)
        (ends (C.written console.old) (R.written report.old)) (ends (C.written console.new) (R.written report.new)) }
    ensures memory { result ≡ Err SeedsFault.Memory → (console.new ≡ console.old) × (report.new ≡ report.old) }
    ensures console_later { C.faults console.old ≤ C.faults console.new }
    ensures report_later { R.faults report.old ≤ R.faults report.new }
    ensures cause { result ≡ Err SeedsFault.Sink
        → Rose (C.faults console.old) (C.faults console.new) ⊎ Rose (R.faults report.old) (R.faults report.new) }
{
    let Ok(mut played) = play_seed(alloc, job, seed) else {
        return Err(SeedsFault::Memory);
    };
    let put = put_block(&mut played, job, seed, none, console, report);
    drop(played);
    match put {
        Ok(()) => Ok(()),
        Err(_) => Err(SeedsFault::Sink),
    }
}
