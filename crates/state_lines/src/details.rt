//! What is told of an event besides, as it was found before it.
ghost use Rattle.std.specs.Prelude.{◌≡◌, ◌≤◌, ◌<◌, ◌++◌, true, OnOk};
ghost use Rattle.sn_base.specs.Events.{event_fits};
ghost use Rattle.machine_states.specs.Machine.{IsApplied, next_of};
ghost use Rattle.state_json.specs.Details.{of_report, of_validation, of_recovery, details_text};
ghost use Rattle.state_lines.specs.Found.{found_text};

use crate::recovery::add_recovery;
use crate::step::apply_step;
use crate::unready::{add_all_unready, add_reporter};
use machine_states::has_its_nodes;
use machine_states::sn_machine::Machine;
use sn_base::{Answer, Event, Memory, NodeId};
use state_texts::add_member;

fn add_report(
    text: &mut Vec<u8>,
    machine: &Machine,
    node: NodeId,
    answer: &Answer,
) -> Result<(), Memory>
    requires { node < machine.now.config.nodes }
    ensures { OnOk result (text.new.items ≡ text.old.items ++ of_report machine.now.state node answer.now) }
{
    match answer {
        Answer::Reported(_) => {
            add_member(text, "unready")?;
            add_reporter(text, machine, node)
        }
        _ => Ok(()),
    }
}

fn add_validation(text: &mut Vec<u8>, machine: &Machine, answer: &Answer) -> Result<(), Memory>
    ensures { OnOk result (text.new.items ≡ text.old.items ++ of_validation machine.now.state answer.now) }
{
    has_its_nodes(machine);
    match answer {
        Answer::NotReady(_) => {
            add_member(text, "unready")?;
            add_all_unready(text, machine)
        }
        _ => Ok(()),
    }
}

fn add_taken_back(text: &mut Vec<u8>, machine: &Machine, answer: &Answer) -> Result<(), Memory>
    ensures { OnOk result (text.new.items ≡ text.old.items ++ of_recovery machine.now.state answer.now) }
{
    match answer {
        Answer::Recovered(_) => {
            add_member(text, "recovery")?;
            add_recovery(text, machine)
        }
        _ => Ok(()),
    }
}

/// What is found before an event that is no step.
fn add_found(
    text: &mut Vec<u8>,
    machine: &Machine,
    event: &Event,
    answer: &Answer,
) -> Result<(), Memory>
    requires { event_fits machine.now.config.nodes event.now ≡ true }
    ensures { OnOk result (text.new.items ≡ text.old.items ++ found_text machine.now.state event.now answer.now) }
{
    match event {
        Event::Report(node) => add_report(text, machine, *node, answer),
        Event::Validate => add_validation(text, machine, answer),
        Event::Recover => add_taken_back(text, machine, answer),
        _ => Ok(()),
    }
}

/// Applies an event that will have this answer, and adds what is told of it besides.
pub fn apply_with_details(
    text: &mut Vec<u8>,
    machine: &mut Machine,
    event: &Event,
    answer: &Answer,
) -> Result<(), Memory>
    requires fits { event_fits machine.old.config.nodes event.now ≡ true }
    requires room { 1 ≤ machine.old.spare }
    requires foreseen { answer.now ≡ (next_of machine.old event.now).answer }
    ensures text { OnOk result (text.new.items ≡ text.old.items
        ++ details_text machine.old.image machine.old.state event.now answer.now) }
    ensures next { OnOk result (IsApplied machine.old machine.new event.now answer.now) }
{
    match event {
        Event::Step(node) => apply_step(text, machine, *node),
        _ => {
            add_found(text, machine, event, answer)?;
            machine.apply(*event);
            Ok(())
        }
    }
}
