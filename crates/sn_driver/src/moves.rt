//! What may be due at a node by the machine alone.
ghost use Rattle.std.specs.Prelude.{◌≡◌, ◌<◌, true, length, slice_get, IfSome};
ghost use Rattle.sn_base.specs.Events.{event_fits};
ghost use Rattle.sn_base.specs.declared.event.Event.TheVariants.{Step};
ghost use Rattle.due_events.specs.Lists.{answer_foreseen, delivery, hop, eviction, validation, step};

use crate::answers::{goes_on, is_delivered, is_validated, needs_evict};
use due_events::sn_machine::Machine;
use sn_base::{Answer, Event, NodeId};

/// The delivery of the message at a place of the network's list, where the node would take it now.
pub fn delivery(machine: &Machine, node: NodeId, place: usize) -> Option<Event>
    requires { place < length machine.now.state.fabric.net.flights }
    ensures same { IfSome (slice_get machine.now.state.fabric.net.flights place) (λ f. result ≡
        delivery machine.now.image machine.now.config machine.now.state node f) }
    ensures fits { IfSome result (λ event. event_fits machine.now.config.nodes event ≡ true) }
{
    let net = machine.net();
    // For the prover alone: no two messages have the same number.
    let _count = net.count();
    let (message, switch) = net.message(place);
    // What stands elsewhere hasn't arrived, and needs no look.
    if switch.number() / 2 != node.number() {
        return None;
    }
    if message.to == node && is_delivered(&machine.foresee(Event::Deliver(message.id))) {
        Some(Event::Deliver(message.id))
    } else {
        None
    }
}

/// The hop of the message at a place of the network's list, where it stands in a switch of the node and hasn't arrived.
pub fn hop(machine: &Machine, node: NodeId, place: usize) -> Option<Event>
    requires { place < length machine.now.state.fabric.net.flights }
    ensures same { IfSome (slice_get machine.now.state.fabric.net.flights place) (λ f. result ≡ hop node f) }
    ensures fits { IfSome result (λ event. event_fits machine.now.config.nodes event ≡ true) }
{
    let (message, switch) = machine.net().message(place);
    let at = switch.number() / 2;
    if at == node.number() && at != message.to.number() {
        Some(Event::Hop(message.id))
    } else {
        None
    }
}

/// The eviction of the least block that may leave, where the node's instruction waits for a frame. The answer is the one that
/// the node's step would have now.
pub fn eviction(machine: &Machine, node: NodeId, answer: &Answer) -> Option<Event>
    requires here { node < machine.now.config.nodes }
    requires foreseen { answer.now ≡ answer_foreseen machine.now.image machine.now.config machine.now.state (Step node) }
    ensures same { result ≡ eviction machine.now.image machine.now.config machine.now.state node }
    ensures fits { IfSome result (λ event. event_fits machine.now.config.nodes event ≡ true) }
{
    if !needs_evict(answer) {
        return None;
    }
    let block = machine.least_line(node)?;
    // For the prover alone: the block is one of memory's.
    let _number = block.number();
    Some(Event::Evict(node, block))
}

/// The validation, which is node 0's.
pub fn validation(machine: &Machine, node: NodeId) -> Option<Event>
    requires { node < machine.now.config.nodes }
    ensures same { result ≡ validation machine.now.image machine.now.config machine.now.state node }
    ensures fits { IfSome result (λ event. event_fits machine.now.config.nodes event ≡ true) }
{
    if node.number() == 0 && is_validated(&machine.foresee(Event::Validate)) {
        Some(Event::Validate)
    } else {
        None
    }
}

/// The node's step, where its instruction comes further. The answer is the one that it would have now.
pub fn step(machine: &Machine, node: NodeId, answer: &Answer) -> Option<Event>
    requires here { node < machine.now.config.nodes }
    requires foreseen { answer.now ≡ answer_foreseen machine.now.image machine.now.config machine.now.state (Step node) }
    ensures same { result ≡ step machine.now.image machine.now.config machine.now.state node }
    ensures fits { IfSome result (λ event. event_fits machine.now.config.nodes event ≡ true) }
{
    if goes_on(answer) {
        Some(Event::Step(node))
    } else {
        None
    }
}
