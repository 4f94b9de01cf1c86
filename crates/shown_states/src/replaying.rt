//! A whole replay that shows states.
ghost use Rattle.std.specs.Prelude.{◌≡◌, ◌≤◌, ◌⊎◌, OnOk, Err};
ghost use Rattle.sn_io.specs.Outside.{Rose};
ghost use Rattle.sink_pieces.specs.Pieces.{ends};
ghost use Rattle.sn_probe.specs.Probes.{meters_in};
ghost use Rattle.shown_states.specs.Shown.{MayBegin, told_script, IsShown, IsShownInPart, KnowApplied, IsCutShort};

use crate::job::StatesReplay;
use crate::play::{StatesFault, play};
use script_replay::sn_machine::Machine;
use sn_io::Sink;
use sn_probe::ProbeSet;
use std::alloc::Global;

/// Applies the events in order, tells each to every probe, puts the released bytes to the console, and puts to the report a line
/// for each event that is shown, between the first line and the summary.
pub fn replay_states<C: Sink, R: Sink>(
    alloc: Global,
    job: StatesReplay,
    probes: &mut ProbeSet,
    console: &mut C,
    report: &mut R,
) -> Result<(), StatesFault>
    requires { MayBegin job }

    // All events are applied and told, and all pieces are put.
    ensures ok { OnOk result (IsShown job (meters_in first tally step probes.old.probes.items)
        (ends (C.written console.old) (R.written report.old)) (ends (C.written console.new) (R.written report.new))) }
    ensures told { OnOk result (meters_in first tally step probes.new.probes.items
        ≡ told_script job (meters_in first tally step probes.old.probes.items)) }

    // A sink broke, and the probes were told just the events that were applied.
    ensures sink { result ≡ Err StatesFault.Sink → IsShownInPart job (meters_in first tally step probes.old.probes.items)
        (ends (C.written console.old) (R.written report.old)) (ends (C.written console.new) (R.written report.new)) }
    ensures applied { result ≡ Err StatesFault.Sink → KnowApplied job (meters_in first tally step probes.old.probes.items)
        (ends (C.written console.old) (R.written report.old)) (ends (C.written console.new) (R.written report.new))
        (meters_in first tally step probes.new.probes.items) }

    // Memory was lacking: nothing is done, or the pieces of some events are put whole, and no others.
    ensures memory { result ≡ Err StatesFault.Memory →
        ((console.new ≡ console.old) × (report.new ≡ report.old) × (probes.new ≡ probes.old))
        ⊎ IsCutShort job (meters_in first tally step probes.old.probes.items)
        (ends (C.written console.old) (R.written report.old)) (ends (C.written console.new) (R.written report.new))
        (meters_in first tally step probes.new.probes.items) }
    ensures cause { result ≡ Err StatesFault.Sink
        → Rose (C.faults console.old) (C.faults console.new) ⊎ Rose (R.faults report.old) (R.faults report.new) }
    ensures console_later { C.faults console.old ≤ C.faults console.new }
    ensures report_later { R.faults report.old ≤ R.faults report.new }
{
    let StatesReplay {
        program,
        config,
        watch,
        only,
        script,
    } = job;
    let events = script.events();
    let Ok(mut machine) = Machine::with_room(alloc, program, config, events.len() as u32) else {
        return Err(StatesFault::Memory);
    };
    let put = play(
        alloc,
        &mut machine,
        events,
        &only,
        watch,
        probes,
        console,
        report,
    );
    drop(machine);
    put
}
