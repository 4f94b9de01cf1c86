//! A whole state.
ghost use Rattle.std.specs.Prelude.{◌≡◌, ◌++◌, not, false, length, IfOk, OnOk};
ghost use Rattle.sn_model.specs.Caches.{block_count};
ghost use Rattle.sn_model.specs.Fabric.{home_of};
ghost use Rattle.state_json.specs.Json.{IsAddedIf, with_commas, array};
ghost use Rattle.state_json.specs.Parts.{is_as_at_start, other_home_text, node_texts, home_texts, state_text};

use crate::controller::add_controller;
use crate::home::{add_other_home, is_as_at_start};
use crate::net::add_net;
use crate::node::add_node;
use sn_base::{BLOCKS, BlockNo, Memory, NodeId};
use sn_machine::Machine;
use state_texts::{add, add_comma, add_member, add_opening};

fn add_each_node(text: &mut Vec<u8>, machine: &Machine) -> Result<(), Memory>
    ensures { OnOk result (text.new.items ≡ text.old.items
        ++ with_commas false (node_texts machine.now.config.nodes machine.now.state)) }
{
    let mut others = false;
    let count = machine.config().nodes;
    'nodes: for number in 0..count {
        add_comma(text, others)?;
        add_node(text, machine, NodeId::numbered(number))?;
        others = true;
    }
    Ok(())
}

/// All nodes, each whole.
pub fn add_nodes(text: &mut Vec<u8>, machine: &Machine) -> Result<(), Memory>
    ensures { OnOk result (text.new.items ≡ text.old.items
        ++ array (node_texts machine.now.config.nodes machine.now.state)) }
{
    add(text, "[")?;
    add_each_node(text, machine)?;
    add(text, "]")
}

/// A home's entry, unless it is as at the start; and whether texts stand there then.
fn add_if_other(
    text: &mut Vec<u8>,
    others: bool,
    machine: &Machine,
    block: BlockNo,
) -> Result<bool, Memory>
    ensures { IfOk result (λ some. IsAddedIf (not (is_as_at_start machine.now.image block (home_of machine.now.state.fabric block)))
        (other_home_text block (home_of machine.now.state.fabric block)) text.old.items text.new.items others some) }
{
    if is_as_at_start(machine, block) {
        return Ok(others);
    }
    add_comma(text, others)?;
    add_other_home(text, machine, block)?;
    Ok(true)
}

fn add_each_home(text: &mut Vec<u8>, machine: &Machine) -> Result<(), Memory>
    ensures { OnOk result (text.new.items ≡ text.old.items
        ++ with_commas false (home_texts machine.now.image block_count machine.now.state)) }
{
    let mut others = false;
    'homes: for number in 0..BLOCKS {
        others = add_if_other(text, others, machine, BlockNo::new(number as u16))?;
    }
    Ok(())
}

/// The homes that aren't as at the program's start.
fn add_homes(text: &mut Vec<u8>, machine: &Machine) -> Result<(), Memory>
    ensures { OnOk result (text.new.items ≡ text.old.items
        ++ array (home_texts machine.now.image block_count machine.now.state)) }
{
    add(text, "[")?;
    add_each_home(text, machine)?;
    add(text, "]")
}

/// That the state has as many nodes as the machine. Nothing is done.
pub fn has_its_nodes(machine: &Machine)
    ensures { length machine.now.state.fabric.nodes ≡ machine.now.config.nodes }
{
    let view = machine.recovered();
    view.is_cut();
}

/// The whole state of a machine.
#[tactic(auto, unfolding(state_json::specs::Parts::state_text))]
pub fn add_state(text: &mut Vec<u8>, machine: &Machine) -> Result<(), Memory>
    ensures { OnOk result (text.new.items ≡ text.old.items ++ state_text machine.now.image machine.now.state) }
{
    has_its_nodes(machine);
    add_opening(text, "nodes")?;
    add_nodes(text, machine)?;
    add_member(text, "homes")?;
    add_homes(text, machine)?;
    add_member(text, "net")?;
    add_net(text, machine)?;
    add_member(text, "controller")?;
    add_controller(text, machine)?;
    add(text, "}")
}
