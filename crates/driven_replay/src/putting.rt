//! What is put at the start, of an event and at the end, by what is shown.
ghost use Rattle.std.specs.Prelude.{◌≡◌, ℕ, ◌+◌, ◌≤◌, ◌⊎◌, true, List, Option, IfOk, OnOk, Err};
ghost use Rattle.sn_io.specs.Outside.{Rose};
ghost use Rattle.sn_machine.specs.Machine.{next_of};
ghost use Rattle.sn_probe.specs.Probes.{meters_in, tallies_of};
ghost use Rattle.sink_pieces.specs.Pieces.{ends, after, Breaks};
ghost use Rattle.script_replay.specs.Played.{IsWatchable, after_event, told_next};
ghost use Rattle.driven_replay.specs.Pieces.{watch_of, ShowsStates};
ghost use Rattle.driven_replay.specs.Said.{IsThere};
ghost use Rattle.driven_replay.specs.Answered.{IsFresh, start_now, event_now, end_now};

use crate::job::DriveShowing;
use script_replay::{put_end, turn};
use shown_states::{StatesFault, put_last_line, put_opening, turn_with_state};
use sn_base::{Answer, Event};
use sn_io::Sink;
use sn_machine::Machine;
use sn_probe::ProbeSet;
use sn_text::Line;

/// Why something isn't put whole.
#[derive(Clone, Copy)]
pub(crate) enum PutFault {
    /// A sink took less than the whole of a piece.
    Sink,
    /// Memory was wanted and not given. Nothing of it is put.
    Memory,
}

/// Puts the start: the first line, where states are shown, and else nothing.
pub(crate) fn put_start<R: Sink>(
    machine: &Machine,
    text: &mut Vec<u8>,
    showing: &DriveShowing,
    report: &mut R,
) -> Result<(), PutFault>
    requires fresh { IsFresh machine.now }
    ensures ok { OnOk result ((c : Option (List ℕ)) →
        ends c (R.written report.new) ≡ after (ends c (R.written report.old)) (start_now machine.now showing.now)) }
    ensures sink { result ≡ Err PutFault.Sink → (c : Option (List ℕ)) →
        Breaks (start_now machine.now showing.now) (ends c (R.written report.old)) (ends c (R.written report.new)) }
    ensures memory { result ≡ Err PutFault.Memory → report.new ≡ report.old }
    ensures later { R.faults report.old ≤ R.faults report.new }
    ensures cause { result ≡ Err PutFault.Sink → Rose (R.faults report.old) (R.faults report.new) }
{
    match showing {
        DriveShowing::Replay(_) => Ok(()),
        DriveShowing::States(_) => match put_opening(text, machine, &None, report) {
            Ok(()) => Ok(()),
            Err(StatesFault::Sink) => Err(PutFault::Sink),
            Err(StatesFault::Memory) => Err(PutFault::Memory),
        },
    }
}

/// Applies an event, tells it to every probe and puts its pieces. Where memory is lacking for its line, the machine may be before the
/// event or after it.
pub(crate) fn put_turn<C: Sink, R: Sink>(
    machine: &mut Machine,
    line: &mut Line,
    text: &mut Vec<u8>,
    event: &Event,
    showing: &DriveShowing,
    probes: &mut ProbeSet,
    console: &mut C,
    report: &mut R,
) -> Result<Answer, PutFault>
    requires there { IsThere machine.old.config.nodes event.now }
    requires room { 1 ≤ machine.old.spare }
    requires watched { IsWatchable (watch_of showing.now) }
    ensures next { OnOk result (machine.new ≡ after_event machine.old event.now) }
    ensures answer { IfOk result (λ answer. answer ≡ (next_of machine.old event.now).answer) }
    ensures told { OnOk result (meters_in first tally step probes.new.probes.items
        ≡ told_next machine.old event.now (meters_in first tally step probes.old.probes.items)) }
    ensures ok { OnOk result (ends (C.written console.new) (R.written report.new)
        ≡ after (ends (C.written console.old) (R.written report.old)) (event_now machine.old showing.now event.now)) }
    ensures sink { result ≡ Err PutFault.Sink → Breaks (event_now machine.old showing.now event.now)
        (ends (C.written console.old) (R.written report.old)) (ends (C.written console.new) (R.written report.new)) }
    ensures knows { result ≡ Err PutFault.Sink → meters_in first tally step probes.new.probes.items
        ≡ told_next machine.old event.now (meters_in first tally step probes.old.probes.items) }
    ensures memory { result ≡ Err PutFault.Memory → ShowsStates showing.now
        × (console.new ≡ console.old) × (report.new ≡ report.old) × (probes.new ≡ probes.old) }
    ensures console_later { C.faults console.old ≤ C.faults console.new }
    ensures report_later { R.faults report.old ≤ R.faults report.new }
    ensures cause { result ≡ Err PutFault.Sink
        → Rose (C.faults console.old) (C.faults console.new) ⊎ Rose (R.faults report.old) (R.faults report.new) }
{
    match showing {
        DriveShowing::Replay(showing) => {
            match turn(machine, line, event, showing, probes, console, report) {
                Ok(answer) => Ok(answer),
                Err(_) => Err(PutFault::Sink),
            }
        }
        DriveShowing::States(_) => {
            match turn_with_state(text, machine, event, &None, probes, console, report) {
                Ok(answer) => Ok(answer),
                Err(StatesFault::Sink) => Err(PutFault::Sink),
                Err(StatesFault::Memory) => Err(PutFault::Memory),
            }
        }
    }
}

/// Puts the end of the events that were applied to the machine.
pub(crate) fn put_ending<R: Sink>(
    line: &mut Line,
    text: &mut Vec<u8>,
    machine: &Machine,
    showing: &DriveShowing,
    probes: &ProbeSet,
    report: &mut R,
) -> Result<(), PutFault>
    requires watched { IsWatchable (watch_of showing.now) }
    ensures ok { OnOk result ((c : Option (List ℕ)) → ends c (R.written report.new) ≡ after (ends c (R.written report.old))
        (end_now machine.now showing.now (tallies_of (meters_in first tally step probes.now.probes.items)))) }
    ensures sink { result ≡ Err PutFault.Sink → (c : Option (List ℕ)) →
        Breaks (end_now machine.now showing.now (tallies_of (meters_in first tally step probes.now.probes.items)))
        (ends c (R.written report.old)) (ends c (R.written report.new)) }
    ensures memory { result ≡ Err PutFault.Memory → ShowsStates showing.now × (report.new ≡ report.old) }
    ensures later { R.faults report.old ≤ R.faults report.new }
    ensures cause { result ≡ Err PutFault.Sink → Rose (R.faults report.old) (R.faults report.new) }
{
    match showing {
        DriveShowing::Replay(showing) => match put_end(line, machine, showing, probes, report) {
            Ok(()) => Ok(()),
            Err(_) => Err(PutFault::Sink),
        },
        DriveShowing::States(watch) => match put_last_line(text, machine, *watch, probes, report) {
            Ok(()) => Ok(()),
            Err(StatesFault::Sink) => Err(PutFault::Sink),
            Err(StatesFault::Memory) => Err(PutFault::Memory),
        },
    }
}
