//! Reads scripts: one event a line.
ghost use Rattle.std.specs.Prelude.{◌≡◌, ◌<◌, ◌≤◌, ◌^◌, true, false, All, IfOk, IfErr, MatchOption, length, Ok};
ghost use Rattle.sn_base.specs.Events.{event_fits, block_fits};
ghost use Rattle.sn_text.specs.Script.{begins, after, other_event_of, message_event_of, event_of, script_of};
ghost use Rattle.sn_text.specs.Items.{IsRefusedAs};
ghost use Rattle.sn_base.specs.declared.limits.TheConstants.{EVENTS};

use crate::cause::{Fault, ScriptFault};
use crate::items::{Form, read_items};
use crate::operands::{eviction_in, input_in, message_in, node_in, switch_in};
use sn_base::Event;
use std::alloc::Global;
use std::marker::Model;

/// What stands after a word where a line begins with it.
pub fn rest_after<'a>(line: &'a [u8], word: &str) -> Option<&'a [u8]>
    ensures { MatchOption result (begins word.now line.now ≡ false)
        (λ rest. (begins word.now line.now ≡ true) × (rest.now ≡ after word.now line.now)) }
{
    line.strip_prefix(word.as_bytes())
}

// The event of a switch, of a block or of input.
fn other_event_in(nodes: u8, line: &[u8]) -> Result<Event, Fault>
    requires few { nodes ≤ 16 }
    ensures same { result ≡ other_event_of nodes line.now }
    ensures fits { IfOk result (λ event. event_fits nodes event ≡ true) }
    ensures block { IfOk result (λ event. block_fits event ≡ true) }
{
    if let Some(switch) = rest_after(line, "kill ") {
        switch_in(nodes, switch).map(Event::Kill)
    } else if let Some(words) = rest_after(line, "evict ") {
        eviction_in(nodes, words)
    } else if let Some(words) = rest_after(line, "input ") {
        input_in(nodes, words)
    } else {
        Err(Fault::NotOfForm)
    }
}

// The event of a message, or another.
fn message_event_in(nodes: u8, line: &[u8]) -> Result<Event, Fault>
    requires few { nodes ≤ 16 }
    ensures same { result ≡ message_event_of nodes line.now }
    ensures fits { IfOk result (λ event. event_fits nodes event ≡ true) }
    ensures block { IfOk result (λ event. block_fits event ≡ true) }
{
    if let Some(id) = rest_after(line, "hop ") {
        message_in(id).map(Event::Hop)
    } else if let Some(id) = rest_after(line, "deliver ") {
        message_in(id).map(Event::Deliver)
    } else if let Some(id) = rest_after(line, "lose ") {
        message_in(id).map(Event::Lose)
    } else {
        other_event_in(nodes, line)
    }
}

/// The event that a line of a script says, on a machine of so many nodes. A line of no such form is refused before one that
/// names what isn't there; whether a message is in flight isn't asked.
#[tactic(auto, unfolding(crate::specs::Script::event_of))]
pub fn event_in(nodes: u8, line: &[u8]) -> Result<Event, Fault>
    requires few { nodes ≤ 16 }
    ensures same { result ≡ event_of nodes line.now }
    ensures fits { IfOk result (λ event. event_fits nodes event ≡ true) }
    ensures block { IfOk result (λ event. block_fits event ≡ true) }
{
    if line == b"validate".as_slice() {
        Ok(Event::Validate)
    } else if line == b"recover".as_slice() {
        Ok(Event::Recover)
    } else if let Some(node) = rest_after(line, "step ") {
        node_in(nodes, node).map(Event::Step)
    } else if let Some(node) = rest_after(line, "edge ") {
        node_in(nodes, node).map(Event::Edge)
    } else if let Some(node) = rest_after(line, "report ") {
        node_in(nodes, node).map(Event::Report)
    } else {
        message_event_in(nodes, line)
    }
}

/// Scripts for a machine of so many nodes.
#[derive(Drop)]
struct ScriptForm {
    nodes: u8,
}

impl Model for ScriptForm {
    ghost use Rattle.std.specs.Prelude.{ℕ, ◌≤◌};

    ghost Value = { ℕ };

    ghost view = { λ f. f.nodes };

    ghost invariant = { λ f. f.nodes ≤ 16 };
}

impl Form for ScriptForm {
    type Item = Event;

    ghost use Rattle.std.specs.Prelude.{◌≡◌, true};
    ghost use Rattle.sn_base.specs.Events.{event_fits};
    ghost use Rattle.sn_text.specs.Script.{event_of};

    ghost item_of = { λ nodes line. event_of nodes line };

    ghost good = { λ nodes event. event_fits nodes event ≡ true };

    fn read(&self, line: &[u8]) -> Result<Event, Fault> {
        event_in(self.nodes, line)
    }
}

/// The events of a script for a machine of so many nodes, or the first cause for which it isn't one. It refuses a line for its
/// form before its range, and counts the event after the 1,000,000th only where its line is good. It takes memory for the
/// events; the file's length is for the caller to judge.
pub fn read_script(alloc: Global, bytes: &[u8], nodes: u8) -> Result<Vec<Event>, ScriptFault>
    requires few { nodes ≤ 16 }
    requires length { length bytes.now < 2 ^ 62 }
    ensures ok { IfOk result (λ events. script_of nodes bytes.now ≡ Ok events.items) }
    ensures fit { IfOk result (λ events. All (λ event. event_fits nodes event ≡ true) events.items) }
    ensures few { IfOk result (λ events. length events.items ≤ EVENTS) }
    ensures refused { IfErr result (IsRefusedAs (script_of nodes bytes.now)) }
{
    read_items(alloc, &ScriptForm { nodes }, bytes)
}
