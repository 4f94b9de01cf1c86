//! What is told of the state after an event.
ghost use Rattle.std.specs.Prelude.{◌≡◌, ◌++◌, length, map, option_to_list, OnOk};
ghost use Rattle.sn_model.specs.Fabric.{home_of};
ghost use Rattle.state_parts.specs.Parts.{node_part, controller_part};
ghost use Rattle.state_json.specs.Json.{array};
ghost use Rattle.state_json.specs.Parts.{node_text, home_text, net_text, controller_text, if_told, parts_text, told_text};
ghost use Rattle.state_lines.specs.Touched.{nodes_as, touched_as, AreThere, HasItsNodes};

use crate::touched::{SomeParts, Touched, TouchedNodes};
use machine_states::sn_machine::Machine;
use machine_states::{
    add_controller, add_home, add_net, add_node, add_nodes, add_state, has_its_nodes,
};
use sn_base::{BlockNo, Memory};
use state_texts::{add, add_member, add_null, add_opening};

fn add_touched_nodes(
    text: &mut Vec<u8>,
    machine: &Machine,
    nodes: &TouchedNodes,
) -> Result<(), Memory>
    requires { AreThere machine.now.config.nodes nodes.now }
    ensures { OnOk result (text.new.items ≡ text.old.items
        ++ array (map (λ n. node_text n (node_part machine.now.state n)) (nodes_as machine.now.config.nodes nodes.now))) }
{
    match nodes {
        TouchedNodes::NoNode => add(text, "[]"),
        TouchedNodes::OneNode(node) => {
            add(text, "[")?;
            add_node(text, machine, *node)?;
            add(text, "]")
        }
        TouchedNodes::EveryNode => add_nodes(text, machine),
    }
}

fn add_touched_home(
    text: &mut Vec<u8>,
    machine: &Machine,
    home: &Option<BlockNo>,
) -> Result<(), Memory>
    ensures { OnOk result (text.new.items ≡ text.old.items
        ++ array (map (λ block. home_text machine.now.image block (home_of machine.now.state.fabric block)) (option_to_list home.now))) }
{
    add(text, "[")?;
    if let Some(block) = home {
        add_home(text, machine, *block)?;
    }
    add(text, "]")
}

fn add_if_net(text: &mut Vec<u8>, machine: &Machine, told: bool) -> Result<(), Memory>
    ensures { OnOk result (text.new.items ≡ text.old.items
        ++ if_told told (net_text machine.now.config.nodes machine.now.state.fabric.net)) }
{
    if told {
        add_net(text, machine)
    } else {
        add_null(text)
    }
}

fn add_if_controller(text: &mut Vec<u8>, machine: &Machine, told: bool) -> Result<(), Memory>
    ensures { OnOk result (text.new.items ≡ text.old.items
        ++ if_told told (controller_text (controller_part machine.now.state))) }
{
    if told {
        add_controller(text, machine)
    } else {
        add_null(text)
    }
}

/// Parts, each whole.
#[tactic(auto, unfolding(state_json::specs::Parts::parts_text))]
fn add_parts(text: &mut Vec<u8>, machine: &Machine, parts: &SomeParts) -> Result<(), Memory>
    requires { AreThere machine.now.config.nodes parts.now.nodes }
    ensures { OnOk result (text.new.items ≡ text.old.items
        ++ parts_text machine.now.image machine.now.state (nodes_as machine.now.config.nodes parts.now.nodes)
        (option_to_list parts.now.home) parts.now.net parts.now.controller) }
{
    has_its_nodes(machine);
    add_opening(text, "nodes")?;
    add_touched_nodes(text, machine, &parts.nodes)?;
    add_member(text, "homes")?;
    add_touched_home(text, machine, &parts.home)?;
    add_member(text, "net")?;
    add_if_net(text, machine, parts.net)?;
    add_member(text, "controller")?;
    add_if_controller(text, machine, parts.controller)?;
    add(text, "}")
}

/// The parts that were touched, or the whole state.
pub fn add_told(text: &mut Vec<u8>, machine: &Machine, touched: &Touched) -> Result<(), Memory>
    requires { HasItsNodes machine.now.config.nodes touched.now }
    ensures { OnOk result (text.new.items ≡ text.old.items
        ++ told_text machine.now.image machine.now.state (touched_as machine.now.config.nodes touched.now)) }
{
    match touched {
        Touched::Only(parts) => {
            add_member(text, "parts")?;
            add_parts(text, machine, parts)
        }
        Touched::All => {
            add_member(text, "state")?;
            add_state(text, machine)
        }
    }
}
