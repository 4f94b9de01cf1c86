//! The network.
ghost use Rattle.std.specs.Prelude.{◌≡◌, ◌*◌, ◌<◌, ◌++◌, false, map, IfOk, OnOk};
ghost use Rattle.route_plan.specs.Distances.{is_dead};
ghost use Rattle.sn_text.specs.Text.{switch_text};
ghost use Rattle.sn_fabric.specs.Nets.{net_as};
ghost use Rattle.state_json.specs.Json.{quotation_of, IsAddedIf, with_commas, array};
ghost use Rattle.state_json.specs.Messages.{flight_text};
ghost use Rattle.state_json.specs.Parts.{dead_texts, net_text};

use sn_base::{Memory, NodeId, SwitchId};
use sn_machine::Machine;
use state_texts::{add, add_comma, add_flight, add_large, add_member, add_opening, add_switch};
use switch_net::Net;

fn add_each_flight(text: &mut Vec<u8>, net: &Net) -> Result<(), Memory>
    ensures { OnOk result (text.new.items ≡ text.old.items ++ with_commas false (map flight_text (net_as net.now).flights)) }
{
    let mut others = false;
    'messages: for place in 0..net.count() {
        let (message, switch) = net.message(place);
        add_comma(text, others)?;
        add_flight(text, message, switch)?;
        others = true;
    }
    Ok(())
}

/// The messages in flight, with their switches.
pub fn add_flights(text: &mut Vec<u8>, net: &Net) -> Result<(), Memory>
    ensures { OnOk result (text.new.items ≡ text.old.items ++ array (map flight_text (net_as net.now).flights)) }
{
    add(text, "[")?;
    add_each_flight(text, net)?;
    add(text, "]")
}

/// The switch of a number.
fn switch_of(number: u8) -> SwitchId
    requires { number < 32 }
    ensures { result ≡ number }
{
    let node = NodeId::numbered(number / 2);
    if number % 2 == 0 {
        SwitchId::a(node)
    } else {
        SwitchId::b(node)
    }
}

/// A switch, if it is dead; and whether texts stand there then.
fn add_if_dead(
    text: &mut Vec<u8>,
    others: bool,
    machine: &Machine,
    number: u8,
) -> Result<bool, Memory>
    requires { number < 2 * machine.now.config.nodes }
    ensures { IfOk result (λ some. IsAddedIf (is_dead machine.now.state.fabric.net.dead number) (quotation_of (switch_text number))
        text.old.items text.new.items others some) }
{
    // The prover learns here that there are 16 nodes at most.
    let _sizes = machine.config();
    let switch = switch_of(number);
    if !machine.is_dead(switch) {
        return Ok(others);
    }
    add_comma(text, others)?;
    add_switch(text, switch)?;
    Ok(true)
}

fn add_each_dead(text: &mut Vec<u8>, machine: &Machine) -> Result<(), Memory>
    ensures { OnOk result (text.new.items ≡ text.old.items
        ++ with_commas false (dead_texts (2 * machine.now.config.nodes) machine.now.state.fabric.net.dead)) }
{
    let mut others = false;
    let count = 2 * machine.config().nodes;
    'switches: for number in 0..count {
        others = add_if_dead(text, others, machine, number)?;
    }
    Ok(())
}

/// The network: its messages, its dead switches and the number of the next message.
#[tactic(auto, unfolding(state_json::specs::Parts::net_text))]
pub fn add_net(text: &mut Vec<u8>, machine: &Machine) -> Result<(), Memory>
    ensures { OnOk result (text.new.items ≡ text.old.items ++ net_text machine.now.config.nodes machine.now.state.fabric.net) }
{
    let net = machine.net();
    add_opening(text, "messages")?;
    add_flights(text, net)?;
    add_member(text, "dead")?;
    add(text, "[")?;
    add_each_dead(text, machine)?;
    add(text, "]")?;
    add_member(text, "next")?;
    add_large(text, net.next_id())?;
    add(text, "}")
}
