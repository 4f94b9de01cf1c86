//! A part of the state is shown, or what is due there.
ghost use Rattle.std.specs.Prelude.{◌≡◌, ◌<◌, ◌++◌, false, map, OnOk};
ghost use Rattle.sn_model.specs.Net.{is_there};
ghost use Rattle.sn_fabric.specs.Nets.{net_as};
ghost use Rattle.state_json.specs.Json.{quotation_of, or_null, with_commas};
ghost use Rattle.sn_text.specs.Text.{event_text};
ghost use Rattle.sn_driver.specs.Turns.{due_at};
ghost use Rattle.driven_replay.specs.Dues.{usual_rules, due_text};
ghost use Rattle.driven_replay.specs.Looks.{HasItsNode, arrival_text, flights_text, look_text, look_line};

use crate::job::Look;
use option_values::{INTERVAL, LOSE_EVERY, WAIT};
use shown_states::machine_states::{add_node, add_other_home, add_state};
use sn_base::{Event, Memory, NodeId, Rules, SwitchId};
use sn_driver::Driver;
use sn_machine::Machine;
use sn_msg::Message;
use state_texts::{
    add, add_comma, add_core, add_event, add_flag, add_flight, add_member, add_null, add_opening,
};
use switch_net::Net;

// Whether a message stands in a switch of its receiver.
fn is_there(message: &Message, switch: SwitchId) -> bool
    ensures { result ≡ is_there (record { message = message.now; place = switch }) }
{
    switch.number() / 2 == message.to.number()
}

// A message in flight, and whether it has arrived.
#[tactic(auto, unfolding(crate::specs::Looks::arrival_text))]
fn add_arrival(text: &mut Vec<u8>, message: &Message, switch: SwitchId) -> Result<(), Memory>
    ensures { OnOk result (text.new.items ≡ text.old.items ++ arrival_text (record { message = message.now; place = switch })) }
{
    add_opening(text, "flight")?;
    add_flight(text, message, switch)?;
    add_member(text, "arrived")?;
    add_flag(text, is_there(message, switch))?;
    add(text, "}")
}

fn add_each_arrival(text: &mut Vec<u8>, net: &Net) -> Result<(), Memory>
    ensures { OnOk result (text.new.items ≡ text.old.items ++ with_commas false (map arrival_text (net_as net.now).flights)) }
{
    let mut others = false;
    'messages: for place in 0..net.count() {
        let (message, switch) = net.message(place);
        add_comma(text, others)?;
        add_arrival(text, message, switch)?;
        others = true;
    }
    Ok(())
}

#[tactic(auto, unfolding(crate::specs::Looks::flights_text))]
fn add_arrivals(text: &mut Vec<u8>, net: &Net) -> Result<(), Memory>
    ensures { OnOk result (text.new.items ≡ text.old.items ++ flights_text (net_as net.now).flights) }
{
    add_opening(text, "flights")?;
    add(text, "[")?;
    add_each_arrival(text, net)?;
    add(text, "]")?;
    add(text, "}")
}

/// The rules of a run where no option says otherwise.
pub(crate) fn usual_rules() -> Rules
    ensures { result ≡ usual_rules }
{
    Rules {
        interval: INTERVAL.default as u32,
        wait: WAIT.default as u32,
        lose_every: LOSE_EVERY.default as u32,
        kill: None,
    }
}

fn add_event_or_null(text: &mut Vec<u8>, event: &Option<Event>) -> Result<(), Memory>
    ensures { OnOk result (text.new.items ≡ text.old.items ++ or_null (λ e. quotation_of (event_text e)) event.now) }
{
    match event {
        Some(event) => add_event(text, event),
        None => add_null(text),
    }
}

// What is due to a worker with the number that it draws.
#[tactic(auto, unfolding(crate::specs::Dues::due_text))]
fn add_due(
    text: &mut Vec<u8>,
    machine: &Machine,
    driver: &Driver,
    worker: NodeId,
    pick: u32,
) -> Result<(), Memory>
    requires nodes { machine.now.config.nodes ≡ driver.now.nodes }
    requires worker { worker < driver.now.nodes }
    requires life { driver.now.numbers.done < 4000000000 }
    ensures { OnOk result (text.new.items ≡ text.old.items ++ due_text (due_at driver.now machine.now worker pick)) }
{
    let due = driver.due(machine, u32::from(worker.number()), pick);
    add_opening(text, "event")?;
    add_event_or_null(text, &due)?;
    add(text, "}")
}

#[tactic(auto, unfolding(crate::specs::Looks::look_text))]
fn add_look(
    text: &mut Vec<u8>,
    machine: &Machine,
    driver: &Driver,
    look: &Look,
) -> Result<(), Memory>
    requires there { HasItsNode machine.now.config.nodes look.now }
    requires nodes { driver.now.nodes ≡ machine.now.config.nodes }
    requires rules { driver.now.rules ≡ usual_rules }
    requires life { driver.now.numbers.done < 4000000000 }
    ensures { OnOk result (text.new.items ≡ text.old.items
        ++ look_text machine.now.image machine.now.config machine.now.state driver.now.numbers look.now) }
{
    match look {
        Look::State => add_state(text, machine),
        Look::Node(node) => add_node(text, machine, *node),
        Look::Core(node) => add_core(text, machine.core(*node)),
        Look::Block(block) => add_other_home(text, machine, *block),
        Look::Flights => add_arrivals(text, machine.net()),
        Look::Due(worker, pick) => add_due(text, machine, driver, *worker, *pick),
    }
}

/// Writes the line that has what is asked for. Where memory is lacking, some of it may stand there.
pub(crate) fn write_look(
    text: &mut Vec<u8>,
    machine: &Machine,
    driver: &Driver,
    look: &Look,
) -> Result<(), Memory>
    requires there { HasItsNode machine.now.config.nodes look.now }
    requires nodes { driver.now.nodes ≡ machine.now.config.nodes }
    requires rules { driver.now.rules ≡ usual_rules }
    requires life { driver.now.numbers.done < 4000000000 }
    ensures { OnOk result (text.new.items
        ≡ look_line machine.now.image machine.now.config machine.now.state driver.now.numbers look.now) }
{
    text.clear();
    add_look(text, machine, driver, look)?;
    add(text, "\n")
}
