//! What the report gets of the start, of an event and of the end, and how it is put.
ghost use Rattle.std.specs.Prelude.{◌≡◌, ℕ, ◌+◌, ◌≤◌, ◌⊎◌, true, List, [], ◌∷◌, ◌++◌, drop, length, map, Option, OnOk, OnErr, IfOk};
ghost use Rattle.sn_base.specs.Events.{event_fits};
ghost use Rattle.sn_io.specs.Outside.{Rose};
ghost use Rattle.script_replay.specs.Machine.{IsApplied, next_of};
ghost use Rattle.sn_probe.specs.Probes.{meters_in, told_of};
ghost use Rattle.sink_pieces.specs.Pieces.{ends, after, Breaks, console_piece};
ghost use Rattle.shown_states.specs.Pieces.{report_piece, opening_text, turn_text};

use crate::job::{first_shown, is_shown};
use option_values::Places;
use script_replay::sn_machine::Machine;
use sink_pieces::{put_console, put_report};
use sn_base::{Answer, Event, Memory};
use sn_io::{Failed, Sink};
use sn_probe::ProbeSet;
use state_lines::{add_first_line, apply_with_line};

/// Writes the first line, where the machine's next event is the first that is shown, and else nothing.
pub fn write_opening(
    text: &mut Vec<u8>,
    machine: &Machine,
    only: &Option<Places>,
) -> Result<(), Memory>
    ensures { OnOk result (text.new.items
        ≡ opening_text machine.now.image machine.now.config only.now machine.now.applied machine.now.state) }
{
    text.clear();
    if machine.applied() + 1 == first_shown(only) {
        add_first_line(text, machine)
    } else {
        Ok(())
    }
}

/// Applies an event, and writes what the report gets of it: its line where it is shown, and else the first line where that
/// comes next. Where memory is lacking, the machine may be before the event or after it.
pub fn apply_and_write(
    text: &mut Vec<u8>,
    machine: &mut Machine,
    event: &Event,
    only: &Option<Places>,
) -> Result<Answer, Memory>
    requires fits { event_fits machine.old.config.nodes event.now ≡ true }
    requires room { 1 ≤ machine.old.spare }
    ensures text { OnOk result (text.new.items
        ≡ turn_text machine.old.image machine.old.config only.now (machine.old.applied + 1) machine.old.state event.now) }
    ensures next { IfOk result (λ answer. IsApplied machine.old machine.new event.now answer) }
{
    if is_shown(only, machine.applied() + 1) {
        text.clear();
        return apply_with_line(text, machine, event);
    }
    let answer = machine.apply(*event);
    write_opening(text, machine, only)?;
    Ok(answer)
}

/// Puts a text to the report in one piece. Where there are no bytes, the sink isn't called.
pub fn put_text<R: Sink>(report: &mut R, text: &[u8]) -> Result<(), Failed>
    ensures ok { OnOk result ((c : Option (List ℕ)) →
        ends c (R.written report.new) ≡ after (ends c (R.written report.old)) (report_piece text.now)) }
    ensures err { OnErr result ((c : Option (List ℕ)) →
        Breaks (report_piece text.now) (ends c (R.written report.old)) (ends c (R.written report.new))) }
    ensures later { R.faults report.old ≤ R.faults report.new }
    ensures cause { OnErr result (Rose (R.faults report.old) (R.faults report.new)) }
{
    if text.is_empty() {
        return Ok(());
    }
    put_report(report, text)?;
    Ok(())
}

// What was released since there were so many bytes.
fn released_since(released: &[u8], had: usize) -> &[u8]
    requires { had ≤ length released.now }
    ensures { result.now ≡ drop had released.now }
{
    &released[had..]
}

/// Puts what was released since there were so many bytes, and a text for the report, of the machine's last event, which every
/// probe is told first.
pub fn tell_and_put<C: Sink, R: Sink>(
    text: &[u8],
    had: usize,
    event: &Event,
    answer: &Answer,
    machine: &Machine,
    probes: &mut ProbeSet,
    console: &mut C,
    report: &mut R,
) -> Result<(), Failed>
    requires few { had ≤ length machine.now.state.released }
    ensures told { meters_in first tally step probes.new.probes.items
        ≡ map (told_of machine.now.applied event.now answer.now) (meters_in first tally step probes.old.probes.items) }
    ensures ok { OnOk result (ends (C.written console.new) (R.written report.new)
        ≡ after (ends (C.written console.old) (R.written report.old))
        (console_piece (drop had machine.now.state.released) ++ report_piece text.now)) }
    ensures err { OnErr result (Breaks (console_piece (drop had machine.now.state.released) ++ report_piece text.now)
        (ends (C.written console.old) (R.written report.old)) (ends (C.written console.new) (R.written report.new))) }
    ensures console_later { C.faults console.old ≤ C.faults console.new }
    ensures report_later { R.faults report.old ≤ R.faults report.new }
    ensures cause { OnErr result
        (Rose (C.faults console.old) (C.faults console.new) ⊎ Rose (R.faults report.old) (R.faults report.new)) }
{
    probes.told(u64::from(machine.applied()), event, answer);
    let view = machine.recovered();
    put_console(console, released_since(view.released(), had))?;
    put_text(report, text)?;
    Ok(())
}
