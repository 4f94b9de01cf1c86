//! What a recovery takes back.
ghost use Rattle.std.specs.Prelude.{◌≡◌, ◌<◌, ◌≤◌, ◌++◌, if◌then◌else◌, false, nat_eq, nat_le, length, map, IfOk, OnOk};
ghost use Rattle.log_buffer.specs.Log.{entries_from};
ghost use Rattle.sn_model.specs.Fabric.{node_at};
ghost use Rattle.machine_states.specs.Parts.{retirement_as};
ghost use Rattle.state_parts.specs.Parts.{waiting_of};
ghost use Rattle.state_json.specs.Json.{IsAddedIf, with_commas, array};
ghost use Rattle.state_json.specs.Messages.{flight_text};
ghost use Rattle.state_json.specs.Details.{undone_text, undone_texts, taken_back_texts, recovery_text};
ghost use Rattle.state_lines.specs.Added.{AreAdded};

use log_buffer::LogBuffer;
use machine_states::sn_machine::{Machine, Waiting};
use machine_states::{add_flights, has_its_nodes};
use rv_core::Record;
use sn_base::{Entries, Interval, LogEntry, Memory, NodeId};
use state_texts::{add, add_comma, add_entry, add_member, add_number, add_opening};

/// An entry of a node's log.
#[tactic(auto, unfolding(state_json::specs::Details::undone_text))]
fn add_undone(text: &mut Vec<u8>, node: NodeId, entry: &LogEntry) -> Result<(), Memory>
    ensures { OnOk result (text.new.items ≡ text.old.items ++ undone_text node entry.now) }
{
    add_opening(text, "node")?;
    add_number(text, u64::from(node.number()))?;
    add_member(text, "entry")?;
    add_entry(text, entry)?;
    add(text, "}")
}

/// An entry, if it is of the recovery point's interval or a later one; and whether texts stand there then.
fn add_if_undone(
    text: &mut Vec<u8>,
    others: bool,
    node: NodeId,
    entry: &LogEntry,
    point: Interval,
) -> Result<bool, Memory>
    ensures { IfOk result (λ some. IsAddedIf (nat_le point entry.now.interval) (undone_text node entry.now)
        text.old.items text.new.items others some) }
{
    if entry.interval < point {
        return Ok(others);
    }
    add_comma(text, others)?;
    add_undone(text, node, entry)?;
    Ok(true)
}

/// The entries of a node's log that a recovery uses.
fn add_undone_of(
    text: &mut Vec<u8>,
    others: bool,
    node: NodeId,
    log: &LogBuffer,
    point: Interval,
) -> Result<bool, Memory>
    ensures { IfOk result (λ some. AreAdded (map (undone_text node) (entries_from point log.now.entries))
        text.old.items text.new.items others some) }
{
    let mut some = others;
    'entries: for place in 0..log.count() {
        some = add_if_undone(text, some, node, log.entry(place), point)?;
    }
    Ok(some)
}

/// The same of a node of the machine.
fn add_undone_at(
    text: &mut Vec<u8>,
    others: bool,
    machine: &Machine,
    node: NodeId,
) -> Result<bool, Memory>
    requires { node < machine.now.config.nodes }
    ensures { IfOk result (λ some.
        AreAdded (map (undone_text node) (entries_from machine.now.state.fabric.point (node_at machine.now.state.fabric node).log))
        text.old.items text.new.items others some) }
{
    let view = machine.recovered();
    add_undone_of(text, others, node, machine.log(node), view.point())
}

fn add_each_undone(text: &mut Vec<u8>, machine: &Machine) -> Result<(), Memory>
    ensures { OnOk result (text.new.items ≡ text.old.items
        ++ with_commas false (undone_texts machine.now.config.nodes machine.now.state)) }
{
    let mut others = false;
    let count = machine.config().nodes;
    'nodes: for number in 0..count {
        others = add_undone_at(text, others, machine, NodeId::numbered(number))?;
    }
    Ok(())
}

/// One, where a record is the node's.
fn one_if_of(one: &Waiting<Record>, node: NodeId) -> u64
    ensures count { result ≡ (if nat_eq one.now.entry.core node then 1 else 0) }
    ensures few { result ≤ 1 }
{
    if one.entry.core == node { 1 } else { 0 }
}

/// How many of the records that wait are the node's.
fn count_of(records: &[Waiting<Record>], node: NodeId) -> u64
    ensures count { result ≡ length (waiting_of node (map retirement_as records.now)) }
    ensures few { result ≤ length records.now }
{
    let mut count = 0u64;
    'records: for one in records {
        count += one_if_of(one, node);
    }
    count
}

fn add_each_taken_back(text: &mut Vec<u8>, machine: &Machine) -> Result<(), Memory>
    ensures { OnOk result (text.new.items ≡ text.old.items
        ++ with_commas false (taken_back_texts machine.now.config.nodes machine.now.state)) }
{
    let mut others = false;
    let count = machine.config().nodes;
    'nodes: for number in 0..count {
        add_comma(text, others)?;
        add_number(text, count_of(machine.pending(), NodeId::numbered(number)))?;
        others = true;
    }
    Ok(())
}

/// The log entries that a recovery uses, the messages that it drops, and how many instructions of each node it takes back.
pub fn add_recovery(text: &mut Vec<u8>, machine: &Machine) -> Result<(), Memory>
    ensures { OnOk result (text.new.items ≡ text.old.items ++ recovery_text machine.now.state) }
{
    has_its_nodes(machine);
    add_opening(text, "undone")?;
    add(text, "[")?;
    add_each_undone(text, machine)?;
    add(text, "]")?;
    add_member(text, "dropped")?;
    add_flights(text, machine.net())?;
    add_member(text, "taken_back")?;
    add(text, "[")?;
    add_each_taken_back(text, machine)?;
    add(text, "]")?;
    add(text, "}")
}
