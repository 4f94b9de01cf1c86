//! The parts of what is put of a run that has had its turns.
ghost use Rattle.std.specs.Prelude.{◌≡◌, ◌⊎◌, ℕ, List, [], ◌∷◌, ◌++◌, ◌≤◌, Option, None, IfSome, IsNone, OnOk, OnErr};
ghost use Rattle.sn_io.specs.Outside.{Rose};
ghost use Rattle.sn_console.specs.Handed.{IsHandedOn};
ghost use Rattle.sn_probe.specs.Probes.{meters_in, tallies_of};
ghost use Rattle.sink_pieces.specs.Pieces.{Report, ends, after, Breaks};
ghost use Rattle.script_replay.specs.Played.{IsWatchable};
ghost use Rattle.ordered_run.specs.Reported.{ended_now, IsRoomFor, IsReported};
ghost use Rattle.seed_runs.specs.Text.{seed_line, end_line};
ghost use Rattle.seed_runs.specs.Pieces.{piece_if};
ghost use Rattle.seed_runs.specs.Played.{IsUnput};

use crate::lines::{write_end, write_seed};
use ordered_run::node_run::{Ending, ReportRoom, RunShowing, put_ended};
use ordered_run::node_threads::Finished;
use sink_pieces::{put_console, put_report};
use sn_io::{Failed, Sink};
use sn_probe::ProbeSet;
use sn_text::Line;

/// Puts what is released to the console, and then the report. None where a sink took less.
pub(crate) fn put_run<C: Sink, R: Sink>(
    room: &mut ReportRoom,
    finished: &Finished,
    showing: &RunShowing,
    probes: &ProbeSet,
    console: &mut C,
    report: &mut R,
) -> Option<Ending>
    requires start { IsRoomFor room.old finished.now.machine }
    requires watched { IsWatchable showing.now.watch }
    ensures console { IfSome result (λ ending.
        IsHandedOn [] finished.now.machine.state.released (C.written console.old) (C.written console.new)) }
    ensures report { IfSome result (λ ending. IsReported finished.now.machine finished.now.journal.items finished.now.finish showing.now
        (tallies_of (meters_in first tally step probes.now.probes.items)) ending (R.written report.old) (R.written report.new)) }
    ensures none { IsNone result → IsUnput finished.now.machine finished.now.journal.items finished.now.finish showing.now
        (tallies_of (meters_in first tally step probes.now.probes.items))
        (ends (C.written console.old) (R.written report.old)) (ends (C.written console.new) (R.written report.new)) }
    ensures console_later { C.faults console.old ≤ C.faults console.new }
    ensures report_later { R.faults report.old ≤ R.faults report.new }
    ensures cause { IsNone result → (ended_now finished.now.machine finished.now.finish ≡ None)
        ⊎ (Rose (C.faults console.old) (C.faults console.new) ⊎ Rose (R.faults report.old) (R.faults report.new)) }
{
    let view = finished.machine.recovered();
    match put_console(console, view.released()) {
        Ok(()) => put_ended(room, finished, showing, probes, report),
        Err(_) => None,
    }
}

// Puts a text to the report, where it is asked for.
fn put_if<R: Sink>(asked: bool, text: &[u8], report: &mut R) -> Result<(), Failed>
    ensures ok { OnOk result ((c : Option (List ℕ)) →
        ends c (R.written report.new) ≡ after (ends c (R.written report.old)) (piece_if asked text.now)) }
    ensures err { OnErr result ((c : Option (List ℕ)) →
        Breaks (piece_if asked text.now) (ends c (R.written report.old)) (ends c (R.written report.new))) }
    ensures later { R.faults report.old ≤ R.faults report.new }
    ensures cause { OnErr result (Rose (R.faults report.old) (R.faults report.new)) }
{
    if asked {
        put_report(report, text)
    } else {
        Ok(())
    }
}

/// Puts the line that begins a block.
pub(crate) fn put_head<R: Sink>(line: &mut Line, seed: u64, report: &mut R) -> Result<(), Failed>
    ensures ok { OnOk result ((c : Option (List ℕ)) →
        ends c (R.written report.new) ≡ after (ends c (R.written report.old)) (Report (seed_line seed) ∷ [])) }
    ensures err { OnErr result ((c : Option (List ℕ)) →
        Breaks (Report (seed_line seed) ∷ []) (ends c (R.written report.old)) (ends c (R.written report.new))) }
    ensures later { R.faults report.old ≤ R.faults report.new }
    ensures cause { OnErr result (Rose (R.faults report.old) (R.faults report.new)) }
{
    write_seed(line, seed);
    put_report(report, line.bytes())
}

// Puts the line that ends it.
fn put_end<R: Sink>(line: &mut Line, ending: &Ending, report: &mut R) -> Result<(), Failed>
    ensures ok { OnOk result ((c : Option (List ℕ)) →
        ends c (R.written report.new) ≡ after (ends c (R.written report.old)) (Report (end_line ending.now) ∷ [])) }
    ensures err { OnErr result ((c : Option (List ℕ)) →
        Breaks (Report (end_line ending.now) ∷ []) (ends c (R.written report.old)) (ends c (R.written report.new))) }
    ensures later { R.faults report.old ≤ R.faults report.new }
    ensures cause { OnErr result (Rose (R.faults report.old) (R.faults report.new)) }
{
    write_end(line, ending);
    put_report(report, line.bytes())
}

/// Puts the statistics, where they are asked for, and then the line that ends a block.
pub(crate) fn put_tail<R: Sink>(
    line: &mut Line,
    ending: &Ending,
    counted: bool,
    statistics: &[u8],
    report: &mut R,
) -> Result<(), Failed>
    ensures ok { OnOk result ((c : Option (List ℕ)) → ends c (R.written report.new)
        ≡ after (ends c (R.written report.old)) (piece_if counted statistics.now ++ Report (end_line ending.now) ∷ [])) }
    ensures err { OnErr result ((c : Option (List ℕ)) → Breaks (piece_if counted statistics.now ++ Report (end_line ending.now) ∷ [])
        (ends c (R.written report.old)) (ends c (R.written report.new))) }
    ensures later { R.faults report.old ≤ R.faults report.new }
    ensures cause { OnErr result (Rose (R.faults report.old) (R.faults report.new)) }
{
    put_if(counted, statistics, report)?;
    put_end(line, ending, report)?;
    Ok(())
}
