//! Which parts of a state an event may touch.
ghost use Rattle.std.specs.Prelude.{◌≡◌, ℕ, ◌<◌, true, false, length, Some, None};
ghost use Rattle.sn_base.specs.Events.{event_fits};
ghost use Rattle.sn_model.specs.Net.{flight_of};
ghost use Rattle.sn_model.specs.Refusals.{is_refusal};
ghost use Rattle.machine_states.specs.Machine.{next_of};
ghost use Rattle.state_parts.specs.Touched.{parts_touched, touched_by, touched_by_message, touched_by_delivery, touched_by_step};
ghost use Rattle.state_parts.specs.Touched.{touched_by_eviction};
ghost use Rattle.sn_base.specs.declared.event.Event.{Event};
ghost use Rattle.state_lines.specs.Touched.{touched_as, HasItsNodes};

use machine_states::sn_machine::Machine;
use sn_base::{Answer, BlockNo, Event, MsgId, NodeId};
use sn_msg::{Body, Message};

/// Nodes of a machine.
#[derive(Clone, Copy)]
pub enum TouchedNodes {
    NoNode,
    OneNode(NodeId),
    EveryNode,
}

/// Some nodes, maybe the home of one block, and maybe the network and the controller.
#[derive(Clone, Copy)]
pub struct SomeParts {
    pub nodes: TouchedNodes,
    pub home: Option<BlockNo>,
    pub net: bool,
    pub controller: bool,
}

/// What an event may touch.
#[derive(Clone, Copy)]
pub enum Touched {
    Only(SomeParts),
    All,
}

fn only(nodes: TouchedNodes, net: bool, controller: bool) -> Touched
    ensures { result ≡ Touched.Only (record { nodes = nodes; home = None; net = net; controller = controller }) }
{
    Touched::Only(SomeParts {
        nodes,
        home: None,
        net,
        controller,
    })
}

/// A message to a home touches the block's entry and the node with its log.
fn home_with_node(message: &Message) -> Touched
    ensures { result ≡ Touched.Only (record { nodes = TouchedNodes.OneNode message.now.to; home = Some message.now.block; net = true; controller = false }) }
{
    Touched::Only(SomeParts {
        nodes: TouchedNodes::OneNode(message.to),
        home: Some(message.block),
        net: true,
        controller: false,
    })
}

/// By a message that is delivered.
fn touched_by_message(message: &Message) -> Touched
    ensures parts { (count : ℕ) → touched_as count result ≡ touched_by_message message.now message.now.body }
    ensures there { (count : ℕ) → message.now.to < count → HasItsNodes count result }
{
    match message.body {
        Body::Ready(_) => only(TouchedNodes::NoNode, true, true),
        Body::GetS | Body::GetM | Body::Unblock(_) | Body::PutReq | Body::PutData(_) => {
            home_with_node(message)
        }
        _ => only(TouchedNodes::OneNode(message.to), true, false),
    }
}

/// By a delivery, which isn't refused.
fn touched_by_delivery(machine: &Machine, id: MsgId) -> Touched
    requires taken { is_refusal (next_of machine.now (Event.Deliver id)).answer ≡ false }
    ensures parts { (count : ℕ) → touched_as count result ≡ touched_by_delivery (flight_of machine.now.state.fabric.net.flights id) }
    ensures there { HasItsNodes machine.now.config.nodes result }
{
    let net = machine.net();
    // For the prover alone: each message is to a node of the network.
    let _count = net.count();
    match net.look(id) {
        Ok(message) => touched_by_message(message),
        Err(_) => only(TouchedNodes::NoNode, false, false),
    }
}

fn touched_by_step(node: NodeId, answer: &Answer) -> Touched
    ensures parts { (count : ℕ) → touched_as count result ≡ touched_by_step node answer.now }
    ensures there { (count : ℕ) → node < count → HasItsNodes count result }
{
    match answer {
        Answer::Missed => only(TouchedNodes::OneNode(node), true, false),
        _ => only(TouchedNodes::OneNode(node), false, true),
    }
}

fn touched_by_eviction(node: NodeId, answer: &Answer) -> Touched
    ensures parts { (count : ℕ) → touched_as count result ≡ touched_by_eviction node answer.now }
    ensures there { (count : ℕ) → node < count → HasItsNodes count result }
{
    match answer {
        Answer::PutBegun => only(TouchedNodes::OneNode(node), true, false),
        _ => only(TouchedNodes::OneNode(node), false, false),
    }
}

/// By an event that isn't refused.
fn touched_by(machine: &Machine, event: &Event, answer: &Answer) -> Touched
    requires fits { event_fits machine.now.config.nodes event.now ≡ true }
    requires foreseen { answer.now ≡ (next_of machine.now event.now).answer }
    requires taken { is_refusal answer.now ≡ false }
    ensures parts { touched_as (length machine.now.state.fabric.nodes) result ≡ touched_by machine.now.state event.now answer.now }
    ensures there { HasItsNodes machine.now.config.nodes result }
{
    match event {
        Event::Step(node) => touched_by_step(*node, answer),
        Event::Evict(node, _) => touched_by_eviction(*node, answer),
        Event::Edge(node) | Event::Input(node, _) => {
            only(TouchedNodes::OneNode(*node), false, false)
        }
        Event::Hop(_) | Event::Lose(_) | Event::Kill(_) | Event::Report(_) => {
            only(TouchedNodes::NoNode, true, false)
        }
        Event::Deliver(id) => touched_by_delivery(machine, *id),
        Event::Validate => only(TouchedNodes::EveryNode, true, true),
        Event::Recover => Touched::All,
    }
}

/// Whether the answer refuses its event.
fn is_refusal(answer: &Answer) -> bool
    ensures { result ≡ is_refusal answer.now }
{
    match answer {
        Answer::Waits
        | Answer::NeedsEvict
        | Answer::LogFull
        | Answer::NetFull
        | Answer::Ended
        | Answer::NotCached
        | Answer::PutOpen
        | Answer::MissOpen
        | Answer::CheckpointsFull
        | Answer::Arrived
        | Answer::NotArrived
        | Answer::NoMessage
        | Answer::Held
        | Answer::HomeBusy
        | Answer::AlreadyDead
        | Answer::NotReady(_)
        | Answer::CutOff(_, _)
        | Answer::NoInput => true,
        _ => false,
    }
}

/// The parts that an event may touch, which is to be applied next and will have this answer. One that is refused touches none.
pub fn parts_touched(machine: &Machine, event: &Event, answer: &Answer) -> Touched
    requires fits { event_fits machine.now.config.nodes event.now ≡ true }
    requires foreseen { answer.now ≡ (next_of machine.now event.now).answer }
    ensures parts { touched_as (length machine.now.state.fabric.nodes) result ≡ parts_touched machine.now.state event.now answer.now }
    ensures there { HasItsNodes machine.now.config.nodes result }
{
    if is_refusal(answer) {
        only(TouchedNodes::NoNode, false, false)
    } else {
        touched_by(machine, event, answer)
    }
}
