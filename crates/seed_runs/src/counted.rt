//! A run with its statistics: in an order, or by threads.
ghost use Rattle.std.specs.Prelude.{◌≡◌, ◌⊎◌, ◌≤◌, ℕ, List, true, length, IfOk, IfSome, IsNone, Err};
ghost use Rattle.sn_io.specs.Outside.{Rose};
ghost use Rattle.sn_probe.specs.Probes.{meters_in};
ghost use Rattle.sink_pieces.specs.Pieces.{ends};
ghost use Rattle.script_replay.specs.Played.{IsWatchable};
ghost use Rattle.run_journals.specs.declared.entry.JournalEntry.{JournalEntry};
ghost use Rattle.ordered_run.specs.Run.{Run as RunData};
ghost use Rattle.ordered_run.specs.Reported.{IsRoomFor};
ghost use Rattle.ordered_run.specs.NodeRunShown.{MayBegin};
ghost use Rattle.seed_runs.specs.Played.{IsPlayed};
ghost use Rattle.seed_runs.specs.Shown.{IsDoneCounted, IsBrokenCounted, IsCountedWith, IsCountedInPart};
ghost use Rattle.seed_runs.specs.Shown.{IsCountedByThreads, IsBrokenByThreads};

use crate::play::{Played, play, play_by_threads};
use crate::putting::put_run;
use ordered_run::node_run::{Ending, Run, RunFault, RunShowing};
use ordered_run::node_threads::tell;
use sink_pieces::put_report;
use sn_io::{Gate, Sink};
use sn_probe::ProbeSet;
use std::alloc::Global;
use std::sync::Wait;
use std::thread::Threads;
use turn_orders::Order;

// Tells each probe the events of a run that has had its turns, puts what is released to the console, and to the report what is to be
// shown and the lines of the run's statistics. None where a sink took less.
fn put_counted<C: Sink, R: Sink>(
    played: &mut Played,
    showing: &RunShowing,
    probes: &mut ProbeSet,
    console: &mut C,
    report: &mut R,
) -> Option<Ending>
    requires start { IsRoomFor played.old.room played.old.finished.machine }
    requires watched { IsWatchable showing.now.watch }
    requires answered { length played.old.finished.answers.items ≡ length played.old.finished.journal.items }
    ensures some { (r : RunData) (its : List JournalEntry) → MayBegin r → IsPlayed r its true played.old → showing.now ≡ r.showing →
        IfSome result (λ ending. IsCountedWith r its (meters_in first tally step probes.old.probes.items) ending
        (ends (C.written console.old) (R.written report.old)) (ends (C.written console.new) (R.written report.new))
        (meters_in first tally step probes.new.probes.items)) }
    ensures none { (r : RunData) (its : List JournalEntry) → MayBegin r → IsPlayed r its true played.old → showing.now ≡ r.showing →
        IsNone result → IsCountedInPart r its (meters_in first tally step probes.old.probes.items)
        (ends (C.written console.old) (R.written report.old)) (ends (C.written console.new) (R.written report.new))
        (meters_in first tally step probes.new.probes.items) }
    ensures cause { (r : RunData) (its : List JournalEntry) → MayBegin r → IsPlayed r its true played.old →
        IsNone result → Rose (C.faults console.old) (C.faults console.new) ⊎ Rose (R.faults report.old) (R.faults report.new) }
    ensures console_later { C.faults console.old ≤ C.faults console.new }
    ensures report_later { R.faults report.old ≤ R.faults report.new }
{
    let Played {
        finished,
        statistics,
        room,
    } = played;
    tell(&finished.journal, &finished.answers, probes);
    let Some(ending) = put_run(room, finished, showing, probes, console, report) else {
        return None;
    };
    match put_report(report, statistics.as_slice()) {
        Ok(()) => Some(ending),
        Err(_) => None,
    }
}

/// Runs the program in this order up to the run's end; then tells each probe the journal's events, puts what is released to the
/// console, and to the report what is to be shown and the lines of the run's statistics. It takes all memory before it puts
/// anything.
pub fn run_counted<C: Sink, R: Sink>(
    alloc: Global,
    job: Run,
    order: Order,
    probes: &mut ProbeSet,
    console: &mut C,
    report: &mut R,
) -> Result<Ending, RunFault>
    requires { MayBegin job }

    // It came to the end of the order's journal, and all of that journal's text is put, and its statistics.
    ensures ok { IfOk result (λ ending. IsDoneCounted order job (meters_in first tally step probes.old.probes.items) ending
        (ends (C.written console.old) (R.written report.old)) (ends (C.written console.new) (R.written report.new))
        (meters_in first tally step probes.new.probes.items)) }

    // It came to its end, and a sink broke.
    ensures sink { result ≡ Err RunFault.Sink → IsBrokenCounted order job (meters_in first tally step probes.old.probes.items)
        (ends (C.written console.old) (R.written report.old)) (ends (C.written console.new) (R.written report.new))
        (meters_in first tally step probes.new.probes.items) }

    // Memory was lacking, and nothing is done.
    ensures memory { result ≡ Err RunFault.Memory →
        (console.new ≡ console.old) × (report.new ≡ report.old) × (probes.new ≡ probes.old) }
    ensures cause { result ≡ Err RunFault.Sink
        → Rose (C.faults console.old) (C.faults console.new) ⊎ Rose (R.faults report.old) (R.faults report.new) }
    ensures console_later { C.faults console.old ≤ C.faults console.new }
    ensures report_later { R.faults report.old ≤ R.faults report.new }
{
    let showing = job.showing;
    let Ok(mut played) = play(alloc, job, order, true) else {
        return Err(RunFault::Memory);
    };
    let put = put_counted(&mut played, &showing, probes, console, report);
    drop(played);
    match put {
        Some(ending) => Ok(ending),
        None => Err(RunFault::Sink),
    }
}

/// The same where one worker a node takes the turns, each in a thread of its own. The console gets its bytes once the run has ended,
/// and not beside it.
pub fn run_counted_by_threads<T: Threads + Wait + Sync, C: Sink, R: Sink, G: Gate + Sync>(
    rt: &T,
    alloc: Global,
    job: Run,
    probes: &mut ProbeSet,
    console: &mut C,
    report: &mut R,
    gate: &G,
) -> Result<Ending, RunFault>
    requires { MayBegin job }

    // There is a due journal, as whose end the run ended, and all of its text is put, and its statistics.
    ensures ok { IfOk result (λ ending. IsCountedByThreads job (meters_in first tally step probes.old.probes.items) ending
        (ends (C.written console.old) (R.written report.old)) (ends (C.written console.new) (R.written report.new))
        (meters_in first tally step probes.new.probes.items)) }

    // It came to its end, and a sink broke.
    ensures sink { result ≡ Err RunFault.Sink → IsBrokenByThreads job (meters_in first tally step probes.old.probes.items)
        (ends (C.written console.old) (R.written report.old)) (ends (C.written console.new) (R.written report.new))
        (meters_in first tally step probes.new.probes.items) }

    // Memory was lacking: nothing is put, and no probe told.
    ensures memory { result ≡ Err RunFault.Memory →
        (console.new ≡ console.old) × (report.new ≡ report.old) × (probes.new ≡ probes.old) }
    ensures cause { result ≡ Err RunFault.Sink
        → Rose (C.faults console.old) (C.faults console.new) ⊎ Rose (R.faults report.old) (R.faults report.new) }
    ensures console_later { C.faults console.old ≤ C.faults console.new }
    ensures report_later { R.faults report.old ≤ R.faults report.new }
{
    let showing = job.showing;
    let Ok(mut played) = play_by_threads(rt, alloc, job, gate) else {
        return Err(RunFault::Memory);
    };
    let put = put_counted(&mut played, &showing, probes, console, report);
    drop(played);
    match put {
        Some(ending) => Ok(ending),
        None => Err(RunFault::Sink),
    }
}
