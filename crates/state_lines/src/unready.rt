//! Who isn't ready for a checkpoint, and what holds it back.
ghost use Rattle.std.specs.Prelude.{◌≡◌, ◌+◌, ◌<◌, ◌++◌, if◌then◌else◌, false, nat_eq, nat_le, slice_index, List, ℕ, [], ◌∷◌, IfOk, OnOk};
ghost use Rattle.sn_model.specs.Caches.{block_count};
ghost use Rattle.sn_model.specs.Fabric.{node_at, home_of, home_node};
ghost use Rattle.state_json.specs.Json.{with_commas, array};
ghost use Rattle.state_json.specs.Details.{miss_below, put_below, open_text, open_below, open_texts, unready_text};
ghost use Rattle.state_json.specs.Details.{reporter_texts, unready_texts};
ghost use Rattle.state_lines.specs.Added.{AreAdded};

use machine_states::sn_machine::{Machine, OpenMiss, OpenPut, Transaction};
use machine_states::{add_open_miss, add_open_put, has_its_nodes};
use sn_base::{BLOCKS, BlockNo, Memory, NodeId};
use state_texts::{add, add_comma, add_member, add_number, add_opening, add_transaction};

/// A miss that began below checkpoint `k`.
fn miss_below(miss: Option<OpenMiss>, k: u64) -> Option<OpenMiss>
    ensures { result ≡ miss_below miss k }
{
    match miss {
        Some(open) if u64::from(open.issued) < k => Some(open),
        _ => None,
    }
}

/// A put that began below checkpoint `k`.
fn put_below(put: Option<OpenPut>, k: u64) -> Option<OpenPut>
    ensures { result ≡ put_below put k }
{
    match put {
        Some(open) if u64::from(open.issued) < k => Some(open),
        _ => None,
    }
}

/// A block with its open transaction.
fn add_open(text: &mut Vec<u8>, block: BlockNo, transaction: &Transaction) -> Result<(), Memory>
    ensures { OnOk result (text.new.items ≡ text.old.items ++ open_text block transaction.now) }
{
    add_opening(text, "block")?;
    add_number(text, u64::from(block.number()))?;
    add_member(text, "transaction")?;
    add_transaction(
        text,
        transaction.kind,
        transaction.requester,
        transaction.begun,
    )?;
    add(text, "}")
}

/// A block's transaction, if it is open since an interval below checkpoint `k`; and whether texts stand there then.
fn add_if_open(
    text: &mut Vec<u8>,
    others: bool,
    block: BlockNo,
    transaction: &Option<Transaction>,
    k: u64,
) -> Result<bool, Memory>
    ensures { IfOk result (λ some. AreAdded (open_below k block transaction.now) text.old.items text.new.items others some) }
{
    match transaction {
        Some(open) if u64::from(open.begun) < k => {
            add_comma(text, others)?;
            add_open(text, block, open)?;
            Ok(true)
        }
        _ => Ok(others),
    }
}

/// The same of a block that has its home at the node.
fn add_if_open_at(
    text: &mut Vec<u8>,
    others: bool,
    machine: &Machine,
    node: NodeId,
    block: BlockNo,
    k: u64,
) -> Result<bool, Memory>
    ensures { IfOk result (λ some. AreAdded (if nat_eq (home_node machine.now.state.fabric block) node
        then open_below k block (home_of machine.now.state.fabric block).transaction else []) text.old.items text.new.items others some) }
{
    has_its_nodes(machine);
    if block.home(machine.config().nodes) == node {
        add_if_open(text, others, block, &machine.transaction(block), k)
    } else {
        Ok(others)
    }
}

fn add_each_open(text: &mut Vec<u8>, machine: &Machine, node: NodeId, k: u64) -> Result<(), Memory>
    ensures { OnOk result (text.new.items ≡ text.old.items
        ++ with_commas false (open_texts block_count machine.now.state.fabric node k)) }
{
    let mut others = false;
    'numbers: for number in 0..BLOCKS {
        others = add_if_open_at(text, others, machine, node, BlockNo::new(number as u16), k)?;
    }
    Ok(())
}

/// The transactions of a node's home that are open since an interval below checkpoint `k`.
fn add_all_open(text: &mut Vec<u8>, machine: &Machine, node: NodeId, k: u64) -> Result<(), Memory>
    ensures { OnOk result (text.new.items ≡ text.old.items ++ array (open_texts block_count machine.now.state.fabric node k)) }
{
    add(text, "[")?;
    add_each_open(text, machine, node, k)?;
    add(text, "]")
}

/// The checkpoint that a node reported last.
fn reported_by(machine: &Machine, node: NodeId) -> u64
    ensures { result ≡ slice_index machine.now.state.reported node }
{
    let place = usize::from(node.number());
    u64::from(machine.reported().get(place).copied().unwrap_or(0))
}

/// A node that isn't ready for checkpoint `k`, with what began below it.
#[tactic(auto, unfolding(state_json::specs::Details::unready_text))]
fn add_unready(text: &mut Vec<u8>, machine: &Machine, node: NodeId, k: u64) -> Result<(), Memory>
    requires { node < machine.now.config.nodes }
    ensures { OnOk result (text.new.items ≡ text.old.items ++ unready_text machine.now.state node k) }
{
    add_opening(text, "node")?;
    add_number(text, u64::from(node.number()))?;
    add_member(text, "now")?;
    add_number(text, u64::from(machine.now(node)))?;
    add_member(text, "reported")?;
    add_number(text, reported_by(machine, node))?;
    add_member(text, "miss")?;
    add_open_miss(text, &miss_below(machine.miss(node), k))?;
    add_member(text, "put")?;
    add_open_put(text, &put_below(machine.put(node), k))?;
    add_member(text, "transactions")?;
    add_all_open(text, machine, node, k)?;
    add(text, "}")
}

/// The node of a report, unless it is ready for its own interval.
pub fn add_reporter(text: &mut Vec<u8>, machine: &Machine, node: NodeId) -> Result<(), Memory>
    requires { node < machine.now.config.nodes }
    ensures { OnOk result (text.new.items ≡ text.old.items ++ array (reporter_texts machine.now.state node)) }
{
    let now = machine.now(node);
    add(text, "[")?;
    if machine.ready(node) < now {
        add_unready(text, machine, node, u64::from(now))?;
    }
    add(text, "]")
}

/// The next checkpoint, which a validation would move the recovery point to.
fn next_point(machine: &Machine) -> u64
    ensures { result ≡ machine.now.state.fabric.point + 1 }
{
    let view = machine.recovered();
    u64::from(view.point()) + 1
}

/// A node, if it hasn't reported the next checkpoint; and whether texts stand there then.
fn add_if_unready(
    text: &mut Vec<u8>,
    others: bool,
    machine: &Machine,
    node: NodeId,
) -> Result<bool, Memory>
    requires { node < machine.now.config.nodes }
    ensures { IfOk result (λ some. AreAdded (if nat_le (slice_index machine.now.state.reported node) machine.now.state.fabric.point
        then unready_text machine.now.state node (machine.now.state.fabric.point + 1) ∷ [] else [])
        text.old.items text.new.items others some) }
{
    let next = next_point(machine);
    if reported_by(machine, node) >= next {
        return Ok(others);
    }
    add_comma(text, others)?;
    add_unready(text, machine, node, next)?;
    Ok(true)
}

fn add_each_unready(text: &mut Vec<u8>, machine: &Machine) -> Result<(), Memory>
    ensures { OnOk result (text.new.items ≡ text.old.items
        ++ with_commas false (unready_texts machine.now.config.nodes machine.now.state)) }
{
    let mut others = false;
    let count = machine.config().nodes;
    'nodes: for number in 0..count {
        others = add_if_unready(text, others, machine, NodeId::numbered(number))?;
    }
    Ok(())
}

/// All nodes that haven't reported the next checkpoint.
pub fn add_all_unready(text: &mut Vec<u8>, machine: &Machine) -> Result<(), Memory>
    ensures { OnOk result (text.new.items ≡ text.old.items
        ++ array (unready_texts machine.now.config.nodes machine.now.state)) }
{
    add(text, "[")?;
    add_each_unready(text, machine)?;
    add(text, "]")
}
