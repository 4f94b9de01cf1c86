//! Events and answers as strings, as a script and the report have them.
ghost use Rattle.std.specs.Prelude.{◌≡◌, ◌++◌, codes, decimal, OnOk};
ghost use Rattle.sn_text.specs.Text.{named_number, switch_text, event_text, answer_text, IsNumbered};
ghost use Rattle.state_json.specs.Json.{quotation_of};

use crate::json::{add, add_digits, add_name_and_number, add_number};
use crate::messages::add_switch_name;
use sn_base::{Answer, Event, Memory, NodeId};
use sn_text::plain_answer;

fn add_named_node(text: &mut Vec<u8>, name: &str, node: NodeId) -> Result<(), Memory>
    ensures { OnOk result (text.new.items ≡ text.old.items ++ named_number name.now node) }
{
    add_name_and_number(text, name, u64::from(node.number()))
}

fn add_event_words(text: &mut Vec<u8>, event: &Event) -> Result<(), Memory>
    ensures { OnOk result (text.new.items ≡ text.old.items ++ event_text event.now) }
{
    match event {
        Event::Step(node) => add_named_node(text, "step", *node),
        Event::Evict(node, block) => {
            add_named_node(text, "evict", *node)?;
            add(text, " ")?;
            add_number(text, u64::from(block.number()))
        }
        Event::Edge(node) => add_named_node(text, "edge", *node),
        Event::Hop(id) => add_name_and_number(text, "hop", *id),
        Event::Deliver(id) => add_name_and_number(text, "deliver", *id),
        Event::Lose(id) => add_name_and_number(text, "lose", *id),
        Event::Kill(switch) => {
            add(text, "kill ")?;
            add_switch_name(text, *switch)
        }
        Event::Report(node) => add_named_node(text, "report", *node),
        Event::Validate => add(text, "validate"),
        Event::Recover => add(text, "recover"),
        Event::Input(node, byte) => {
            add_named_node(text, "input", *node)?;
            add(text, " ")?;
            add_digits(text, *byte)
        }
    }
}

/// An event as a script has it.
pub fn add_event(text: &mut Vec<u8>, event: &Event) -> Result<(), Memory>
    ensures { OnOk result (text.new.items ≡ text.old.items ++ quotation_of (event_text event.now)) }
{
    add(text, "\"")?;
    add_event_words(text, event)?;
    add(text, "\"")
}

// An answer that has numbers behind its name.
fn add_numbered_answer(text: &mut Vec<u8>, answer: &Answer) -> Result<(), Memory>
    requires { IsNumbered answer.now }
    ensures { OnOk result (text.new.items ≡ text.old.items ++ answer_text answer.now) }
{
    match answer {
        Answer::Edged(interval) => add_name_and_number(text, "edged", u64::from(*interval)),
        Answer::Reported(interval) => add_name_and_number(text, "reported", u64::from(*interval)),
        Answer::Validated(interval) => add_name_and_number(text, "validated", u64::from(*interval)),
        Answer::NotReady(node) => add_named_node(text, "notready", *node),
        Answer::Recovered(undo) => {
            add_name_and_number(text, "recovered", u64::from(undo.to))?;
            add_name_and_number(text, " undone", u64::from(undo.undone))?;
            add_name_and_number(text, " dropped", u64::from(undo.dropped))
        }
        Answer::CutOff(a, b) => {
            add_named_node(text, "cutoff", *a)?;
            add_named_node(text, "", *b)
        }
        _ => Ok(()),
    }
}

fn add_answer_words(text: &mut Vec<u8>, answer: &Answer) -> Result<(), Memory>
    ensures { OnOk result (text.new.items ≡ text.old.items ++ answer_text answer.now) }
{
    match plain_answer(answer) {
        Some(name) => add(text, name),
        None => add_numbered_answer(text, answer),
    }
}

/// An answer as the report has it.
pub fn add_answer(text: &mut Vec<u8>, answer: &Answer) -> Result<(), Memory>
    ensures { OnOk result (text.new.items ≡ text.old.items ++ quotation_of (answer_text answer.now)) }
{
    add(text, "\"")?;
    add_answer_words(text, answer)?;
    add(text, "\"")
}
