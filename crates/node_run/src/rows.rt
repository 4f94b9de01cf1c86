//! The committed trace with what each record does in memory.
ghost use Rattle.std.specs.Prelude.{◌≡◌, ℕ, List, ◌≤◌, Option, OnOk, OnErr};
ghost use Rattle.rv_core.specs.Flat.{first_cores};
ghost use Rattle.sn_io.specs.Outside.{Rose};
ghost use Rattle.sn_probe.specs.Probes.{meters_in, tallies_of};
ghost use Rattle.sink_pieces.specs.Pieces.{ends, after, Breaks};
ghost use Rattle.script_replay.specs.Played.{IsWatchable};
ghost use Rattle.node_run.specs.Reported.{rows_now};

use committed_accesses::AccessRows;
use script_replay::put_summary;
use script_replay::sn_machine::Machine;
use sn_io::{Failed, Sink};
use sn_probe::ProbeSet;
use sn_text::Line;

/// Puts the rows of the machine's committed trace, and then the summary.
pub(crate) fn put_rows<R: Sink>(
    rows: &mut AccessRows,
    line: &mut Line,
    machine: &Machine,
    watch: Option<u32>,
    probes: &ProbeSet,
    report: &mut R,
) -> Result<(), Failed>
    requires start { rows.old.cores ≡ first_cores machine.now.config.nodes machine.now.image.entry }
    requires watched { IsWatchable watch }
    ensures ok { OnOk result ((c : Option (List ℕ)) → ends c (R.written report.new) ≡ after (ends c (R.written report.old))
        (rows_now machine.now watch (tallies_of (meters_in first tally step probes.now.probes.items)))) }
    ensures err { OnErr result ((c : Option (List ℕ)) →
        Breaks (rows_now machine.now watch (tallies_of (meters_in first tally step probes.now.probes.items)))
        (ends c (R.written report.old)) (ends c (R.written report.new))) }
    ensures later { R.faults report.old ≤ R.faults report.new }
    ensures cause { OnErr result (Rose (R.faults report.old) (R.faults report.new)) }
{
    let view = machine.recovered();
    let nodes = machine.config().nodes;
    rows.put(machine.image(), nodes, view.committed(), report)?;
    put_summary(line, "# ", machine, watch, probes, report)?;
    Ok(())
}
