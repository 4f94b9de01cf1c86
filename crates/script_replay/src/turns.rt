//! Events of a list, on a machine that began anywhere.
ghost use Rattle.std.specs.Prelude.{◌≡◌, ℕ, ◌≤◌, ◌⊎◌, length, OnOk, OnErr};
ghost use Rattle.due_events.specs.ConsistentCutsRuns.{AllFit};
ghost use Rattle.sn_io.specs.Outside.{Rose};
ghost use Rattle.sink_pieces.specs.Pieces.{ends, after};
ghost use Rattle.sn_probe.specs.Probes.{meters_in};
ghost use Rattle.script_replay.specs.Played.{after_events, since, turns_left, told_left, StopsAt, IsWatchable};

use crate::job::Showing;
use crate::play::turn_since;
use due_events::sn_machine::Machine;
use sn_base::Event;
use sn_io::{Failed, Sink};
use sn_probe::ProbeSet;
use sn_text::Line;

/// Applies events one after another, tells each to the probes and puts its pieces. Their places are counted from those on before
/// which so many were applied.
pub fn put_turns<C: Sink, R: Sink>(
    machine: &mut Machine,
    line: &mut Line,
    before: u32,
    events: &[Event],
    showing: &Showing,
    probes: &mut ProbeSet,
    console: &mut C,
    report: &mut R,
) -> Result<(), Failed>
    requires fit { AllFit machine.old.config.nodes events.now }
    requires room { length events.now ≤ machine.old.spare }
    requires counted { before ≤ machine.old.applied }
    requires watched { IsWatchable showing.now.watch }
    ensures machine { OnOk result (machine.new ≡ after_events machine.old events.now) }
    ensures told { OnOk result (meters_in first tally step probes.new.probes.items
        ≡ told_left (since before machine.old) events.now (meters_in first tally step probes.old.probes.items)) }
    ensures ok { OnOk result (ends (C.written console.new) (R.written report.new)
        ≡ after (ends (C.written console.old) (R.written report.old))
        (turns_left (since before machine.old) showing.now events.now)) }
    ensures stops { OnErr result ((i : ℕ) × StopsAt (since before machine.old) showing.now events.now i
        (ends (C.written console.old) (R.written report.old)) (meters_in first tally step probes.old.probes.items)
        (ends (C.written console.new) (R.written report.new)) (meters_in first tally step probes.new.probes.items)) }
    ensures console_later { C.faults console.old ≤ C.faults console.new }
    ensures report_later { R.faults report.old ≤ R.faults report.new }
    ensures cause { OnErr result
        (Rose (C.faults console.old) (C.faults console.new) ⊎ Rose (R.faults report.old) (R.faults report.new)) }
{
    'events: for event in events {
        turn_since(
            machine, line, before, event, showing, probes, console, report,
        )?;
    }
    Ok(())
}
