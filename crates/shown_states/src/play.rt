//! Events one after another, each with its pieces.
ghost use Rattle.std.specs.Prelude.{◌≡◌, ℕ, ◌+◌, ◌≤◌, ◌⊎◌, true, List, [], ◌∷◌, length, Option, OnOk, OnErr, IfOk, Err};
ghost use Rattle.sn_base.specs.Events.{event_fits};
ghost use Rattle.consistent_cuts.specs.Runs.{EventFits};
ghost use Rattle.sn_io.specs.Outside.{Rose};
ghost use Rattle.script_replay.specs.Machine.{next_of};
ghost use Rattle.sn_probe.specs.Probes.{meters_in, tallies_of};
ghost use Rattle.sink_pieces.specs.Pieces.{Report, ends, after, Breaks};
ghost use Rattle.state_json.specs.Lines.{last_line};
ghost use Rattle.script_replay.specs.Played.{after_event, told_next, IsWatchable, IsAtStart};
ghost use Rattle.shown_states.specs.Pieces.{report_piece, opening_text};
ghost use Rattle.shown_states.specs.Played.{turn_now, states_of};
ghost use Rattle.shown_states.specs.Shown.{MayBegin, told_script, IsShown, IsShownInPart, KnowApplied, IsCutShort};

use crate::pieces::{apply_and_write, put_text, tell_and_put, write_opening};
use option_values::Places;
use script_replay::sn_machine::Machine;
use sink_pieces::put_report;
use sn_base::{Answer, Event};
use sn_io::Sink;
use sn_probe::ProbeSet;
use state_lines::add_last_line;
use std::alloc::Global;

/// Why a replay that shows states didn't come to its end.
#[derive(Clone, Copy, PartialEq, Eq, Debug)]
pub enum StatesFault {
    /// A sink took less than the whole of a piece.
    Sink,
    /// Memory was wanted and not given. The pieces of the events before are put.
    Memory,
}

/// Puts the first line, where the machine's next event is the first that is shown.
pub fn put_opening<R: Sink>(
    text: &mut Vec<u8>,
    machine: &Machine,
    only: &Option<Places>,
    report: &mut R,
) -> Result<(), StatesFault>
    ensures ok { OnOk result ((c : Option (List ℕ)) → ends c (R.written report.new) ≡ after (ends c (R.written report.old))
        (report_piece (opening_text machine.now.image machine.now.config only.now machine.now.applied machine.now.state))) }
    ensures sink { result ≡ Err StatesFault.Sink → (c : Option (List ℕ)) →
        Breaks (report_piece (opening_text machine.now.image machine.now.config only.now machine.now.applied machine.now.state))
        (ends c (R.written report.old)) (ends c (R.written report.new)) }
    ensures memory { result ≡ Err StatesFault.Memory → report.new ≡ report.old }
    ensures later { R.faults report.old ≤ R.faults report.new }
    ensures cause { result ≡ Err StatesFault.Sink → Rose (R.faults report.old) (R.faults report.new) }
{
    let Ok(()) = write_opening(text, machine, only) else {
        return Err(StatesFault::Memory);
    };
    match put_text(report, text.as_slice()) {
        Ok(()) => Ok(()),
        Err(_) => Err(StatesFault::Sink),
    }
}

/// One event: its text is written while it is applied, every probe is told it, and its pieces are put. Where memory is lacking, the
/// machine may be before the event or after it.
pub fn turn_with_state<C: Sink, R: Sink>(
    text: &mut Vec<u8>,
    machine: &mut Machine,
    event: &Event,
    only: &Option<Places>,
    probes: &mut ProbeSet,
    console: &mut C,
    report: &mut R,
) -> Result<Answer, StatesFault>
    requires fits { event_fits machine.old.config.nodes event.now ≡ true }
    requires whole { EventFits machine.old.config.nodes event.now }
    requires room { 1 ≤ machine.old.spare }
    ensures next { OnOk result (machine.new ≡ after_event machine.old event.now) }
    ensures answer { IfOk result (λ answer. answer ≡ (next_of machine.old event.now).answer) }
    ensures told { OnOk result (meters_in first tally step probes.new.probes.items
        ≡ told_next machine.old event.now (meters_in first tally step probes.old.probes.items)) }
    ensures ok { OnOk result (ends (C.written console.new) (R.written report.new)
        ≡ after (ends (C.written console.old) (R.written report.old)) (turn_now machine.old only.now event.now)) }
    ensures sink { result ≡ Err StatesFault.Sink → Breaks (turn_now machine.old only.now event.now)
        (ends (C.written console.old) (R.written report.old)) (ends (C.written console.new) (R.written report.new)) }
    ensures knows { result ≡ Err StatesFault.Sink → meters_in first tally step probes.new.probes.items
        ≡ told_next machine.old event.now (meters_in first tally step probes.old.probes.items) }
    ensures memory { result ≡ Err StatesFault.Memory →
        (console.new ≡ console.old) × (report.new ≡ report.old) × (probes.new ≡ probes.old) }
    ensures console_later { C.faults console.old ≤ C.faults console.new }
    ensures report_later { R.faults report.old ≤ R.faults report.new }
    ensures cause { result ≡ Err StatesFault.Sink
        → Rose (C.faults console.old) (C.faults console.new) ⊎ Rose (R.faults report.old) (R.faults report.new) }
{
    let had = machine.recovered().released().len();
    let answer = match apply_and_write(text, machine, event, only) {
        Ok(answer) => answer,
        Err(_) => return Err(StatesFault::Memory),
    };
    match tell_and_put(
        text.as_slice(),
        had,
        event,
        &answer,
        machine,
        probes,
        console,
        report,
    ) {
        Ok(()) => Ok(answer),
        Err(_) => Err(StatesFault::Sink),
    }
}

/// Puts the last line, of the events that were applied to the machine.
pub fn put_last_line<R: Sink>(
    text: &mut Vec<u8>,
    machine: &Machine,
    watch: Option<u32>,
    probes: &ProbeSet,
    report: &mut R,
) -> Result<(), StatesFault>
    requires watched { IsWatchable watch }
    ensures ok { OnOk result ((c : Option (List ℕ)) → ends c (R.written report.new) ≡ after (ends c (R.written report.old))
        (Report (last_line machine.now.image machine.now.config watch
        (tallies_of (meters_in first tally step probes.now.probes.items)) machine.now.applied machine.now.state) ∷ [])) }
    ensures sink { result ≡ Err StatesFault.Sink → (c : Option (List ℕ)) →
        Breaks (Report (last_line machine.now.image machine.now.config watch
        (tallies_of (meters_in first tally step probes.now.probes.items)) machine.now.applied machine.now.state) ∷ [])
        (ends c (R.written report.old)) (ends c (R.written report.new)) }
    ensures memory { result ≡ Err StatesFault.Memory → report.new ≡ report.old }
    ensures later { R.faults report.old ≤ R.faults report.new }
    ensures cause { result ≡ Err StatesFault.Sink → Rose (R.faults report.old) (R.faults report.new) }
{
    text.clear();
    let Ok(()) = add_last_line(text, machine, watch, probes) else {
        return Err(StatesFault::Memory);
    };
    match put_report(report, text.as_slice()) {
        Ok(()) => Ok(()),
        Err(_) => Err(StatesFault::Sink),
    }
}

/// Applies events one after another to a machine that is at its program's start, tells each to the probes and puts its pieces,
/// between those of the start and of the end.
pub fn play<C: Sink, R: Sink>(
    alloc: Global,
    machine: &mut Machine,
    events: &[Event],
    only: &Option<Places>,
    watch: Option<u32>,
    probes: &mut ProbeSet,
    console: &mut C,
    report: &mut R,
) -> Result<(), StatesFault>
    requires ready { IsAtStart machine.old machine.old.image machine.old.config (length events.now) }
    requires begin { MayBegin (states_of machine.old watch only.now events.now) }
    ensures ok { OnOk result (IsShown (states_of machine.old watch only.now events.now)
        (meters_in first tally step probes.old.probes.items)
        (ends (C.written console.old) (R.written report.old)) (ends (C.written console.new) (R.written report.new))) }
    ensures told { OnOk result (meters_in first tally step probes.new.probes.items
        ≡ told_script (states_of machine.old watch only.now events.now) (meters_in first tally step probes.old.probes.items)) }
    ensures sink { result ≡ Err StatesFault.Sink → IsShownInPart (states_of machine.old watch only.now events.now)
        (meters_in first tally step probes.old.probes.items)
        (ends (C.written console.old) (R.written report.old)) (ends (C.written console.new) (R.written report.new)) }
    ensures applied { result ≡ Err StatesFault.Sink → KnowApplied (states_of machine.old watch only.now events.now)
        (meters_in first tally step probes.old.probes.items)
        (ends (C.written console.old) (R.written report.old)) (ends (C.written console.new) (R.written report.new))
        (meters_in first tally step probes.new.probes.items) }
    ensures memory { result ≡ Err StatesFault.Memory →
        ((console.new ≡ console.old) × (report.new ≡ report.old) × (probes.new ≡ probes.old))
        ⊎ IsCutShort (states_of machine.old watch only.now events.now) (meters_in first tally step probes.old.probes.items)
        (ends (C.written console.old) (R.written report.old)) (ends (C.written console.new) (R.written report.new))
        (meters_in first tally step probes.new.probes.items) }
    ensures console_later { C.faults console.old ≤ C.faults console.new }
    ensures report_later { R.faults report.old ≤ R.faults report.new }
    ensures cause { result ≡ Err StatesFault.Sink
        → Rose (C.faults console.old) (C.faults console.new) ⊎ Rose (R.faults report.old) (R.faults report.new) }
{
    let mut text = Vec::new(alloc);
    match put_opening(&mut text, machine, only, report) {
        Ok(()) => {}
        Err(fault) => return Err(fault),
    }
    'events: for event in events {
        match turn_with_state(&mut text, machine, event, only, probes, console, report) {
            Ok(_) => {}
            Err(fault) => return Err(fault),
        }
    }
    put_last_line(&mut text, machine, watch, probes, report)
}
