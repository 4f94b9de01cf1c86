//! A node.
ghost use Rattle.std.specs.Prelude.{◌≡◌, ◌<◌, ◌≤◌, ◌++◌, [], if◌then◌else◌, false, nat_eq, length, map, option_to_list, IfOk, OnOk};
ghost use Rattle.rv_core.specs.Execution.{in_of};
ghost use Rattle.sn_model.specs.Caches.{block_count, line_of, is_present};
ghost use Rattle.sn_model.specs.Fabric.{node_at};
ghost use Rattle.sn_model.specs.Instructions.{records_of, taken_by};
ghost use Rattle.sn_model.specs.Machine.{processor_at};
ghost use Rattle.sn_machine.specs.Parts.{retirement_as};
ghost use Rattle.state_parts.specs.Parts.{waiting_of, node_part};
ghost use Rattle.state_json.specs.Json.{IsAddedIf, with_commas, array, or_null, bytes};
ghost use Rattle.state_json.specs.Values.{line_text, line_texts, miss_text, put_text, record_text};
ghost use Rattle.state_json.specs.Parts.{node_text};

use rv_core::Record;
use sn_base::{BLOCKS, BlockNo, Memory, NodeId};
use sn_machine::{Machine, OpenMiss, OpenPut, Waiting};
use state_texts::{
    add, add_bytes, add_comma, add_core, add_line, add_log, add_member, add_miss, add_null,
    add_number, add_opening, add_put, add_record,
};

/// The line of a block, if there is one; and whether texts stand there then.
fn add_line_of(
    text: &mut Vec<u8>,
    others: bool,
    machine: &Machine,
    node: NodeId,
    block: BlockNo,
) -> Result<bool, Memory>
    requires { node < machine.now.config.nodes }
    ensures { IfOk result (λ some. IsAddedIf (is_present (line_of (node_at machine.now.state.fabric node).cache block).state)
        (line_text block (line_of (node_at machine.now.state.fabric node).cache block)) text.old.items text.new.items others some) }
{
    let Some(line) = machine.line(node, block) else {
        return Ok(others);
    };
    add_comma(text, others)?;
    add_line(text, block, line.state, &line.content)?;
    Ok(true)
}

fn add_each_line(text: &mut Vec<u8>, machine: &Machine, node: NodeId) -> Result<(), Memory>
    requires { node < machine.now.config.nodes }
    ensures { OnOk result (text.new.items ≡ text.old.items
        ++ with_commas false (line_texts block_count (node_at machine.now.state.fabric node).cache)) }
{
    let mut others = false;
    'lines: for number in 0..BLOCKS {
        others = add_line_of(text, others, machine, node, BlockNo::new(number as u16))?;
    }
    Ok(())
}

fn add_lines(text: &mut Vec<u8>, machine: &Machine, node: NodeId) -> Result<(), Memory>
    requires { node < machine.now.config.nodes }
    ensures { OnOk result (text.new.items ≡ text.old.items
        ++ array (line_texts block_count (node_at machine.now.state.fabric node).cache)) }
{
    add(text, "[")?;
    add_each_line(text, machine, node)?;
    add(text, "]")
}

/// A miss, or null where there is none.
pub fn add_open_miss(text: &mut Vec<u8>, miss: &Option<OpenMiss>) -> Result<(), Memory>
    ensures { OnOk result (text.new.items ≡ text.old.items ++ or_null miss_text miss.now) }
{
    match miss {
        Some(miss) => add_miss(
            text,
            miss.block,
            miss.need,
            miss.issued,
            miss.fixed,
            miss.due,
            miss.acks,
        ),
        None => add_null(text),
    }
}

/// A put, or null where there is none.
pub fn add_open_put(text: &mut Vec<u8>, put: &Option<OpenPut>) -> Result<(), Memory>
    ensures { OnOk result (text.new.items ≡ text.old.items ++ or_null put_text put.now) }
{
    match put {
        Some(put) => add_put(text, put.block, put.issued),
        None => add_null(text),
    }
}

/// A record that waits, if it is the node's; and whether texts stand there then.
fn add_if_of(
    text: &mut Vec<u8>,
    others: bool,
    one: &Waiting<Record>,
    node: NodeId,
) -> Result<bool, Memory>
    ensures { IfOk result (λ some. IsAddedIf (nat_eq one.now.entry.core node) (record_text (retirement_as one.now))
        text.old.items text.new.items others some) }
{
    if one.entry.core != node {
        return Ok(others);
    }
    add_comma(text, others)?;
    add_record(text, one.interval, &one.entry)?;
    Ok(true)
}

/// The records of a node among those that wait.
fn add_each_waiting(
    text: &mut Vec<u8>,
    records: &[Waiting<Record>],
    node: NodeId,
) -> Result<(), Memory>
    ensures { OnOk result (text.new.items ≡ text.old.items
        ++ with_commas false (map record_text (waiting_of node (map retirement_as records.now)))) }
{
    let mut others = false;
    'records: for one in records {
        others = add_if_of(text, others, one, node)?;
    }
    Ok(())
}

fn add_waiting(text: &mut Vec<u8>, records: &[Waiting<Record>], node: NodeId) -> Result<(), Memory>
    ensures { OnOk result (text.new.items ≡ text.old.items
        ++ array (map record_text (waiting_of node (map retirement_as records.now)))) }
{
    add(text, "[")?;
    add_each_waiting(text, records, node)?;
    add(text, "]")
}

/// How many bytes of the node's input a record has read: one at most.
fn reads(one: &Waiting<Record>, node: NodeId) -> u64
    ensures count { result ≡ length (if nat_eq one.now.entry.core node then option_to_list one.now.entry.read else []) }
    ensures few { result ≤ 1 }
{
    if one.entry.core == node && one.entry.read.is_some() {
        1
    } else {
        0
    }
}

/// How many bytes of its input the node's waiting records have read.
fn reads_waiting(records: &[Waiting<Record>], node: NodeId) -> u64
    ensures count { result ≡ length (in_of node (records_of (map retirement_as records.now))) }
    ensures few { result ≤ length records.now }
{
    let mut count = 0u64;
    'records: for one in records {
        count += reads(one, node);
    }
    count
}

/// How many bytes of its input a node has taken.
fn taken(machine: &Machine, node: NodeId) -> u64
    ensures { result ≡ taken_by machine.now.state node }
{
    let view = machine.recovered();
    u64::from(view.taken(node)) + reads_waiting(machine.pending(), node)
}

/// The bytes of input that a node was given.
fn add_given(text: &mut Vec<u8>, machine: &Machine, node: NodeId) -> Result<(), Memory>
    requires { node < machine.now.config.nodes }
    ensures { OnOk result (text.new.items ≡ text.old.items ++ bytes (processor_at machine.now.state node).given) }
{
    let view = machine.recovered();
    add_bytes(text, view.given(node))
}

/// A node, whole.
#[tactic(auto, unfolding(state_json::specs::Parts::node_text))]
pub fn add_node(text: &mut Vec<u8>, machine: &Machine, node: NodeId) -> Result<(), Memory>
    requires { node < machine.now.config.nodes }
    ensures { OnOk result (text.new.items ≡ text.old.items ++ node_text node (node_part machine.now.state node)) }
{
    add_opening(text, "node")?;
    add_number(text, u64::from(node.number()))?;
    add_member(text, "now")?;
    add_number(text, u64::from(machine.now(node)))?;
    add_member(text, "known")?;
    add_number(text, u64::from(machine.known(node)))?;
    add_member(text, "core")?;
    add_core(text, machine.core(node))?;
    add_member(text, "lines")?;
    add_lines(text, machine, node)?;
    add_member(text, "miss")?;
    add_open_miss(text, &machine.miss(node))?;
    add_member(text, "put")?;
    add_open_put(text, &machine.put(node))?;
    add_member(text, "log")?;
    add_log(text, machine.log(node))?;
    add_member(text, "given")?;
    add_given(text, machine, node)?;
    add_member(text, "taken")?;
    add_number(text, taken(machine, node))?;
    add_member(text, "waiting")?;
    add_waiting(text, machine.pending(), node)?;
    add(text, "}")
}
