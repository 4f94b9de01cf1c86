//! What is put of a watched run.
ghost use Rattle.std.specs.Prelude.{◌≡◌, ◌⊎◌, ℕ, List, ◌≤◌, Option, OnOk, OnErr};
ghost use Rattle.sn_io.specs.Outside.{Rose};
ghost use Rattle.sn_probe.specs.Probes.{meters_in, tallies_of};
ghost use Rattle.sink_pieces.specs.Pieces.{ends, after, Breaks};
ghost use Rattle.script_replay.specs.Played.{IsWatchable};
ghost use Rattle.monitor_run.specs.Seen.{seen_line, seen_pieces};
ghost use Rattle.monitor_run.specs.Reported.{report_now, pieces_now};

use crate::marks::Mark;
use script_replay::put_summary;
use sink_pieces::{put_console, put_report};
use sn_io::{Failed, Sink};
use sn_machine::Machine;
use sn_probe::ProbeSet;
use sn_text::Line;

// The line of a cut that was seen.
#[tactic(auto, unfolding(crate::specs::Seen::seen_line))]
fn write_seen(line: &mut Line, mark: &Mark)
    ensures { line.new ≡ seen_line mark.now }
{
    line.clear();
    line.named("seen", u64::from(mark.point));
    line.named("", u64::from(mark.committed));
    line.text("\n");
}

// Puts what was seen.
fn put_seen<R: Sink>(line: &mut Line, seen: &[Mark], report: &mut R) -> Result<(), Failed>
    ensures ok { OnOk result ((c : Option (List ℕ)) →
        ends c (R.written report.new) ≡ after (ends c (R.written report.old)) (seen_pieces seen.now)) }
    ensures err { OnErr result ((c : Option (List ℕ)) →
        Breaks (seen_pieces seen.now) (ends c (R.written report.old)) (ends c (R.written report.new))) }
    ensures later { R.faults report.old ≤ R.faults report.new }
    ensures cause { OnErr result (Rose (R.faults report.old) (R.faults report.new)) }
{
    'marks: for mark in seen {
        write_seen(line, mark);
        put_report(report, line.bytes())?;
    }
    Ok(())
}

// Puts what was seen, and then the summary.
fn put_report_of<R: Sink>(
    line: &mut Line,
    machine: &Machine,
    seen: &[Mark],
    watch: Option<u32>,
    probes: &ProbeSet,
    report: &mut R,
) -> Result<(), Failed>
    requires watched { IsWatchable watch }
    ensures ok { OnOk result ((c : Option (List ℕ)) → ends c (R.written report.new) ≡ after (ends c (R.written report.old))
        (report_now machine.now seen.now watch (tallies_of (meters_in first tally step probes.now.probes.items)))) }
    ensures err { OnErr result ((c : Option (List ℕ)) →
        Breaks (report_now machine.now seen.now watch (tallies_of (meters_in first tally step probes.now.probes.items)))
        (ends c (R.written report.old)) (ends c (R.written report.new))) }
    ensures later { R.faults report.old ≤ R.faults report.new }
    ensures cause { OnErr result (Rose (R.faults report.old) (R.faults report.new)) }
{
    put_seen(line, seen, report)?;
    put_summary(line, "", machine, watch, probes, report)?;
    Ok(())
}

/// Puts the released bytes to the console, and then what was seen and the summary to the report.
pub(crate) fn put_all<C: Sink, R: Sink>(
    line: &mut Line,
    machine: &Machine,
    seen: &[Mark],
    watch: Option<u32>,
    probes: &ProbeSet,
    console: &mut C,
    report: &mut R,
) -> Result<(), Failed>
    requires watched { IsWatchable watch }
    ensures ok { OnOk result (ends (C.written console.new) (R.written report.new)
        ≡ after (ends (C.written console.old) (R.written report.old))
        (pieces_now machine.now seen.now watch (tallies_of (meters_in first tally step probes.now.probes.items)))) }
    ensures err { OnErr result (
        Breaks (pieces_now machine.now seen.now watch (tallies_of (meters_in first tally step probes.now.probes.items)))
        (ends (C.written console.old) (R.written report.old)) (ends (C.written console.new) (R.written report.new))) }
    ensures cause { OnErr result (Rose (C.faults console.old) (C.faults console.new) ⊎ Rose (R.faults report.old) (R.faults report.new)) }
{
    put_console(console, machine.recovered().released())?;
    put_report_of(line, machine, seen, watch, probes, report)?;
    Ok(())
}
