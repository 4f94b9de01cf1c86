//! What the report has of a run.
ghost use Rattle.std.specs.Prelude.{◌≡◌, ◌⊎◌, ℕ, List, ◌≤◌, Option, None, IfSome, IsNone, OnOk, OnErr, All};
ghost use Rattle.sn_io.specs.Outside.{Rose};
ghost use Rattle.sn_text.specs.Written.{HasNumbers, HasValues};
ghost use Rattle.sn_probe.specs.Probes.{meters_in, tallies_of};
ghost use Rattle.sink_pieces.specs.Pieces.{ends, after, Breaks};
ghost use Rattle.script_replay.specs.Played.{IsWatchable};
ghost use Rattle.node_run.specs.Pieces.{entry_lines, journal_pieces};
ghost use Rattle.node_run.specs.Reported.{script_now, report_now, HaveNumbers, ended_now, IsRoomFor, IsReported, IsUnreported};

use crate::ending::{Ending, how_ended};
use crate::job::RunShowing;
use crate::room::ReportRoom;
use crate::rows::put_rows;
use node_threads::{Finished, JournalEntry};
use script_replay::sn_machine::Machine;
use script_replay::{ReportKind, Showing, put_end, put_summary};
use sink_pieces::put_report;
use sn_base::RunReport;
use sn_io::{Failed, Sink};
use sn_probe::ProbeSet;
use sn_text::Line;

// A turn of a journal: a comment that names its worker, and its event as a line of a script.
#[tactic(auto, unfolding(crate::specs::Pieces::entry_lines))]
fn write_entry(line: &mut Line, entry: &JournalEntry)
    ensures text { line.new ≡ entry_lines entry.now }
    ensures numbers { HasNumbers entry.now.event }
{
    line.clear();
    line.count("# ", "worker", u64::from(entry.worker));
    line.script(&entry.event);
}

// Puts the turns of a journal.
fn put_journal<R: Sink>(
    line: &mut Line,
    journal: &[JournalEntry],
    report: &mut R,
) -> Result<(), Failed>
    ensures ok { OnOk result ((c : Option (List ℕ)) →
        ends c (R.written report.new) ≡ after (ends c (R.written report.old)) (journal_pieces journal.now)) }
    ensures err { OnErr result ((c : Option (List ℕ)) →
        Breaks (journal_pieces journal.now) (ends c (R.written report.old)) (ends c (R.written report.new))) }
    ensures numbers { OnOk result (HaveNumbers journal.now) }
    ensures later { R.faults report.old ≤ R.faults report.new }
    ensures cause { OnErr result (Rose (R.faults report.old) (R.faults report.new)) }
{
    'turns: for entry in journal {
        write_entry(line, entry);
        put_report(report, line.bytes())?;
    }
    Ok(())
}

// Puts a journal, and then the summary.
fn put_script<R: Sink>(
    line: &mut Line,
    machine: &Machine,
    journal: &[JournalEntry],
    watch: Option<u32>,
    probes: &ProbeSet,
    report: &mut R,
) -> Result<(), Failed>
    requires watched { IsWatchable watch }
    ensures ok { OnOk result ((c : Option (List ℕ)) → ends c (R.written report.new) ≡ after (ends c (R.written report.old))
        (script_now machine.now journal.now watch (tallies_of (meters_in first tally step probes.now.probes.items)))) }
    ensures err { OnErr result ((c : Option (List ℕ)) →
        Breaks (script_now machine.now journal.now watch (tallies_of (meters_in first tally step probes.now.probes.items)))
        (ends c (R.written report.old)) (ends c (R.written report.new))) }
    ensures numbers { OnOk result (HaveNumbers journal.now) }
    ensures later { R.faults report.old ≤ R.faults report.new }
    ensures cause { OnErr result (Rose (R.faults report.old) (R.faults report.new)) }
{
    put_journal(line, journal, report)?;
    put_summary(line, "# ", machine, watch, probes, report)?;
    Ok(())
}

// Puts what the report has of a run that left this machine and this journal.
fn put_run<R: Sink>(
    room: &mut ReportRoom,
    machine: &Machine,
    journal: &[JournalEntry],
    showing: &RunShowing,
    probes: &ProbeSet,
    report: &mut R,
) -> Result<(), Failed>
    requires start { IsRoomFor room.old machine.now }
    requires watched { IsWatchable showing.now.watch }
    ensures ok { OnOk result ((c : Option (List ℕ)) → ends c (R.written report.new) ≡ after (ends c (R.written report.old))
        (report_now machine.now journal.now showing.now (tallies_of (meters_in first tally step probes.now.probes.items)))) }
    ensures err { OnErr result ((c : Option (List ℕ)) →
        Breaks (report_now machine.now journal.now showing.now (tallies_of (meters_in first tally step probes.now.probes.items)))
        (ends c (R.written report.old)) (ends c (R.written report.new))) }
    ensures numbers { OnOk result (showing.now.report ≡ RunReport.Journal → HaveNumbers journal.now) }
    ensures values { OnOk result (showing.now.report ≡ RunReport.Trace → All HasValues machine.now.state.committed) }
    ensures later { R.faults report.old ≤ R.faults report.new }
    ensures cause { OnErr result (Rose (R.faults report.old) (R.faults report.new)) }
{
    let ReportRoom { line, rows } = room;
    let watch = showing.watch;
    match showing.report {
        RunReport::Summary => put_summary(line, "", machine, watch, probes, report),
        RunReport::Trace => {
            let showing = Showing {
                report: ReportKind::Trace,
                watch,
            };
            put_end(line, machine, &showing, probes, report)
        }
        RunReport::Accesses => put_rows(rows, line, machine, watch, probes, report),
        RunReport::Journal => put_script(line, machine, journal, watch, probes, report),
    }
}

/// Tells how a run ended that left this, and puts its report. None where the run was stopped, and then the report has nothing,
/// or where the report broke. It takes no memory beside its room.
pub fn put_ended<R: Sink>(
    room: &mut ReportRoom,
    finished: &Finished,
    showing: &RunShowing,
    probes: &ProbeSet,
    report: &mut R,
) -> Option<Ending>
    requires start { IsRoomFor room.old finished.now.machine }
    requires watched { IsWatchable showing.now.watch }
    ensures some { IfSome result (λ ending. IsReported finished.now.machine finished.now.journal.items finished.now.finish showing.now
        (tallies_of (meters_in first tally step probes.now.probes.items)) ending (R.written report.old) (R.written report.new)) }
    ensures none { IsNone result → IsUnreported finished.now.machine finished.now.journal.items finished.now.finish showing.now
        (tallies_of (meters_in first tally step probes.now.probes.items)) (R.written report.old) (R.written report.new) }
    ensures later { R.faults report.old ≤ R.faults report.new }
    ensures cause { IsNone result → (ended_now finished.now.machine finished.now.finish ≡ None)
        ⊎ Rose (R.faults report.old) (R.faults report.new) }
{
    let Some(ending) = how_ended(&finished.machine, finished.finish) else {
        return None;
    };
    let journal = finished.journal.as_slice();
    match put_run(room, &finished.machine, journal, showing, probes, report) {
        Ok(()) => Some(ending),
        Err(_) => None,
    }
}
