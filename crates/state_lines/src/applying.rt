//! The line of an event, which is applied meanwhile.
ghost use Rattle.std.specs.Prelude.{◌≡◌, ◌+◌, ◌≤◌, ◌++◌, true, codes, decimal, map, IfOk, OnOk};
ghost use Rattle.sn_base.specs.Events.{event_fits};
ghost use Rattle.sn_text.specs.Text.{event_text, answer_text};
ghost use Rattle.machine_states.specs.Machine.{IsApplied, next_of};
ghost use Rattle.state_json.specs.Json.{quotation_of, opens, member, array};
ghost use Rattle.state_json.specs.Messages.{sent_text};
ghost use Rattle.state_json.specs.Lines.{state_line};

use crate::details::apply_with_details;
use crate::told::add_told;
use crate::touched::parts_touched;
use machine_states::has_its_nodes;
use machine_states::sn_machine::Machine;
use sn_base::{Answer, Event, Memory};
use state_texts::{add, add_all_sent, add_answer, add_event, add_member, add_number, add_opening};

/// The members that each event has: the place of the machine's next event, the event and its answer.
fn add_heading(
    text: &mut Vec<u8>,
    machine: &Machine,
    event: &Event,
    answer: &Answer,
) -> Result<(), Memory>
    ensures { OnOk result (text.new.items ≡ text.old.items ++ (opens (codes "place") (decimal (machine.now.applied + 1))
        ++ member (codes "event") (quotation_of (event_text event.now)) ++ member (codes "answer") (quotation_of (answer_text answer.now)))) }
{
    add_opening(text, "place")?;
    add_number(text, u64::from(machine.applied()) + 1)?;
    add_member(text, "event")?;
    add_event(text, event)?;
    add_member(text, "answer")?;
    add_answer(text, answer)
}

/// The messages that the machine's last event sent.
fn add_sent_by(text: &mut Vec<u8>, machine: &Machine) -> Result<(), Memory>
    ensures { OnOk result (text.new.items ≡ text.old.items ++ member (codes "sent") (array (map sent_text machine.now.sent))) }
{
    add_member(text, "sent")?;
    add_all_sent(text, machine.sent())
}

/// Applies an event and adds its line. Where memory is lacking, the machine may be before the event or after it.
#[tactic(auto, unfolding(state_json::specs::Lines::state_line))]
pub fn apply_with_line(
    text: &mut Vec<u8>,
    machine: &mut Machine,
    event: &Event,
) -> Result<Answer, Memory>
    requires fits { event_fits machine.old.config.nodes event.now ≡ true }
    requires room { 1 ≤ machine.old.spare }
    ensures line { OnOk result (text.new.items ≡ text.old.items
        ++ state_line machine.old.image (machine.old.applied + 1) machine.old.state event.now (next_of machine.old event.now)) }
    ensures next { IfOk result (λ answer. IsApplied machine.old machine.new event.now answer) }
{
    let answer = machine.foresee(*event);
    let touched = parts_touched(machine, event, &answer);
    has_its_nodes(machine);
    add_heading(text, machine, event, &answer)?;
    apply_with_details(text, machine, event, &answer)?;
    add_sent_by(text, machine)?;
    add_told(text, machine, &touched)?;
    add(text, "}")?;
    add(text, "\n")?;
    Ok(answer)
}
