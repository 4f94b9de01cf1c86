//! The network.
ghost use Rattle.std.specs.Prelude.{◌≡◌, ℕ, ◌+◌, ◌-◌, ◌*◌, ◌<◌, ◌≤◌, ◌^◌, ◌↔◌, Bool, true, false, not, Option, Some, None, Ok, Err, IsNone};
ghost use Rattle.std.specs.Prelude.{IsSome, IfSome, IsOk, OnErr, IfOk, IfErr, IsTrue, MatchResult, List, [], length, replicate, slice_get};
ghost use Rattle.std.specs.Prelude.{slice_set};
ghost use Rattle.std.specs.Option.{option_copied, option_map};
ghost use Rattle.route_plan.specs.Distances.{is_dead, is_living};
ghost use Rattle.route_plan.specs.Routes.{first_cut_off};
ghost use Rattle.route_plan.specs.Paths.{AreJoined, IsFirstCutOff};
ghost use Rattle.switch_net.specs.Net.{NetData, IsNet, IsPlaced, has_arrived, next_switch, find_flight, without, flights_with_move, outside, entry_of};
ghost use Rattle.switch_net.specs.Net.{after_send, hop_answer, after_hop, take_answer, living_now};
ghost use Rattle.switch_net.specs.Net.{without_messages};

use crate::answers::{HopAnswer, TakeFault};
use crate::flight::Flight;
use crate::messages::Messages;
use route_plan::{Dead, PlanFault, Routes, plan};
use sn_base::{BlockNo, Interval, MESSAGES, Memory, MsgId, NodeId, SwitchId};
use sn_msg::{Body, Message};
use std::alloc::Global;
use std::marker::Model;

/// The network of a machine.
#[derive(Drop)]
pub struct Net {
    nodes: u8,
    routes: Routes,
    dead: Dead,
    next: MsgId,
    messages: Messages,
}

impl Model for Net {
    ghost use Rattle.std.specs.Prelude.{◌≡◌};
    ghost use Rattle.switch_net.specs.Net.{NetData, IsNet};

    ghost Value = { NetData };

    ghost view = { λ n. record { routes = n.routes; dead = n.dead; next = n.next; flights = n.messages } };

    ghost invariant = { λ n. IsNet (record { routes = n.routes; dead = n.dead; next = n.next; flights = n.messages }) ×
        (n.routes.nodes ≡ n.nodes) };
}

impl Net {
    /// A network of 1 to 16 nodes with no switch dead and no message, whose first message has the number 1.
    pub fn new(alloc: Global, nodes: u8) -> Result<Net, Memory>
        requires some { 1 ≤ nodes }
        requires few { nodes ≤ 16 }
        ensures { IfOk result (λ n. n ≡ without_messages nodes (replicate 32 false) 1) }
    {
        match Net::at(alloc, nodes, Dead::none(), 1) {
            Ok(net) => Ok(net),
            Err(PlanFault::Memory) => Err(Memory),
            Err(PlanFault::CutOff(_, _)) => unreachable!(),
        }
    }

    /// A network of 1 to 16 nodes that goes on with these switches dead and no message. It is refused where two nodes
    /// are cut off from each other.
    pub fn at(alloc: Global, nodes: u8, dead: Dead, next: MsgId) -> Result<Net, PlanFault>
        requires some { 1 ≤ nodes }
        requires few { nodes ≤ 16 }
        requires numbers { 1 ≤ next }
        ensures net { IfOk result (λ n. n ≡ without_messages nodes dead next) }
        ensures cut_off { IfSome (first_cut_off (record { nodes = nodes; dead = dead })) (λ p. result ≡ Err (PlanFault.CutOff p.0 p.1)) }
        ensures joined { IsNone (first_cut_off (record { nodes = nodes; dead = dead })) → IfErr result (λ e. e ≡ PlanFault.Memory) }
        ensures all_living { dead ≡ replicate 32 false → IfErr result (λ e. e ≡ PlanFault.Memory) }
    {
        let routes = plan(alloc, nodes, dead)?;
        let messages = match Messages::new(alloc) {
            Ok(messages) => messages,
            Err(Memory) => return Err(PlanFault::Memory),
        };
        Ok(Net {
            nodes,
            routes,
            dead,
            next,
            messages,
        })
    }

    /// How many more messages there is room for.
    pub fn spare(&self) -> usize
        ensures { result ≡ 1024 - length self.now.flights }
    {
        MESSAGES - self.messages.len()
    }

    /// The number of the next message.
    pub fn next_id(&self) -> MsgId
        ensures { result ≡ self.now.next }
    {
        self.next
    }

    /// How many messages are in flight.
    pub fn count(&self) -> usize
        ensures count { result ≡ length self.now.flights }
        ensures sound { IsNet self.now }
    {
        self.messages.len()
    }

    /// The message at a place of the list, and the switch that it stands in.
    pub fn message(&self, place: usize) -> (&Message, SwitchId)
        requires { place < length self.now.flights }
        ensures { IfSome (slice_get self.now.flights place) (λ f. (result.0.now ≡ f.message) × (result.1 ≡ f.at)) }
    {
        let flight = self.messages.at(place);
        (&flight.message, flight.at)
    }

    fn found(&self, id: MsgId) -> Option<&Flight>
        ensures flight { option_copied result ≡ find_flight self.now.flights id }
        ensures placed { IfSome result (λ f. IsPlaced self.now.routes f.now) }
    {
        self.messages.find(id)
    }

    fn remove(&mut self, id: MsgId) -> Option<Flight>
        ensures removed { result ≡ find_flight self.old.flights id }
        ensures others { self.new ≡ record self.old { flights = without self.old.flights id } }
    {
        self.messages.remove(id)
    }

    fn put_into(&mut self, id: MsgId, switch: SwitchId)
        requires { is_living self.old.routes switch ≡ true }
        ensures { self.new ≡ record self.old { flights = flights_with_move self.old.flights id switch } }
    {
        self.messages.put(id, switch);
    }

    /// Sends a message under the next number. False where its entry switch is dead: then it is lost at once.
    pub fn send(
        &mut self,
        from: NodeId,
        to: NodeId,
        tag: Interval,
        block: BlockNo,
        body: Body,
    ) -> bool
        requires room { length self.old.flights < 1024 }
        requires numbers { self.old.next + 1 < 2 ^ 64 }
        requires sender { from < self.old.routes.nodes }
        requires receiver { to < self.old.routes.nodes }
        ensures sent { self.new
            ≡ after_send self.old (record { id = self.old.next; from = from; to = to; tag = tag; block = block; body = body }) }
        ensures lost { result ≡
            not (is_dead self.old.dead
            (entry_of self.old (record { id = self.old.next; from = from; to = to; tag = tag; block = block; body = body }))) }
    {
        let message = Message {
            id: self.next,
            from,
            to,
            tag,
            block,
            body,
        };
        self.post(&message)
    }

    /// Sends a message that has the next number. False where its entry switch is dead: then it is lost at once.
    pub fn post(&mut self, message: &Message) -> bool
        requires number { message.now.id ≡ self.old.next }
        requires room { length self.old.flights < 1024 }
        requires numbers { self.old.next + 1 < 2 ^ 64 }
        requires sender { message.now.from < self.old.routes.nodes }
        requires receiver { message.now.to < self.old.routes.nodes }
        ensures sent { self.new ≡ after_send self.old message.now }
        ensures lost { result ≡ not (is_dead self.old.dead (entry_of self.old message.now)) }
    {
        let at = self.routes.enter(message.from, message.to);
        self.next += 1;
        if self.dead.has(at) {
            return false;
        }
        self.messages.push(&Flight {
            message: *message,
            at,
        });
        true
    }

    /// The switch to which a message goes on. None where it has arrived.
    fn next_switch(&self, flight: &Flight) -> Option<SwitchId>
        requires { IsPlaced self.now.routes flight.now }
        ensures none { IsNone result ↔ (has_arrived flight.now ≡ true) }
        ensures next { IfSome result (λ s. s ≡ next_switch self.now.routes flight.now) }
        ensures living { IfSome result (λ s. is_living self.now.routes s ≡ true) }
    {
        self.routes.next(flight.at, flight.message.to)
    }

    /// The answer that `hop` would give now.
    pub fn look_hop(&self, id: MsgId) -> HopAnswer
        ensures { result ≡ hop_answer self.now (find_flight self.now.flights id) }
    {
        let Some(flight) = self.found(id) else {
            return HopAnswer::NoMessage;
        };
        match self.next_switch(flight) {
            None => HopAnswer::Arrived,
            Some(next) if self.dead.has(next) => HopAnswer::LostInDead,
            Some(_) => HopAnswer::Hopped,
        }
    }

    /// Moves a message to its next switch. It is lost where that is dead.
    pub fn hop(&mut self, id: MsgId) -> HopAnswer
        ensures answer { result ≡ hop_answer self.old (find_flight self.old.flights id) }
        ensures after { self.new ≡ after_hop self.old id (find_flight self.old.flights id) }
    {
        let Some(flight) = self.found(id) else {
            return HopAnswer::NoMessage;
        };
        let Some(next) = self.next_switch(flight) else {
            return HopAnswer::Arrived;
        };
        if self.dead.has(next) {
            let _ = self.remove(id);
            HopAnswer::LostInDead
        } else {
            self.put_into(id, next);
            HopAnswer::Hopped
        }
    }

    /// The message that `take` would give now.
    pub fn look(&self, id: MsgId) -> Result<&Message, TakeFault>
        ensures message { IfOk result (λ m. take_answer (find_flight self.now.flights id) ≡ Ok m.now) }
        ensures fault { IfErr result (λ e. take_answer (find_flight self.now.flights id) ≡ Err e) }
    {
        let Some(flight) = self.found(id) else {
            return Err(TakeFault::NoMessage);
        };
        if flight.has_arrived() {
            Ok(&flight.message)
        } else {
            Err(TakeFault::NotArrived)
        }
    }

    /// Takes a message out that stands in a switch of its receiver.
    pub fn take(&mut self, id: MsgId) -> Result<Message, TakeFault>
        ensures answer { result ≡ take_answer (find_flight self.old.flights id) }
        ensures taken { IsOk result → self.new ≡ record self.old { flights = without self.old.flights id } }
        ensures refused { OnErr result (self.new ≡ self.old) }
    {
        let message = *self.look(id)?;
        let _ = self.remove(id);
        Ok(message)
    }

    /// Takes a message out that is in flight, wherever it stands.
    pub fn take_out(&mut self, id: MsgId) -> Message
        requires there { IsSome (find_flight self.old.flights id) }
        ensures message { option_map (λ f. f.message) (find_flight self.old.flights id) ≡ Some result }
        ensures taken { self.new ≡ record self.old { flights = without self.old.flights id } }
    {
        match self.remove(id) {
            Some(flight) => flight.message,
            None => unreachable!(),
        }
    }

    /// Loses a message. False where none in flight has this number.
    pub fn lose(&mut self, id: MsgId) -> bool
        ensures there { IsTrue result ↔ IsSome (find_flight self.old.flights id) }
        ensures lost { self.new ≡ record self.old { flights = without self.old.flights id } }
        ensures absent { result ≡ false → self.new ≡ self.old }
    {
        self.remove(id).is_some()
    }

    /// A switch dies, and the messages in it are lost. False where it is dead already.
    pub fn kill(&mut self, switch: SwitchId) -> bool
        requires { switch < 2 * self.old.routes.nodes }
        ensures killed { result ≡ not (is_dead self.old.dead switch) }
        ensures after { result ≡ true →
            self.new ≡ record self.old { dead = slice_set self.old.dead switch true; flights = outside self.old.flights switch } }
        ensures already { result ≡ false → self.new ≡ self.old }
    {
        if self.dead.has(switch) {
            return false;
        }
        self.dead = self.dead.with(switch);
        self.messages.drop_in(switch);
        true
    }

    pub fn is_dead(&self, switch: SwitchId) -> bool
        requires { switch < 2 * self.now.routes.nodes }
        ensures { result ≡ is_dead self.now.dead switch }
    {
        self.dead.has(switch)
    }

    /// The first pair of nodes that no path of living switches joins now.
    pub fn cut_off(&self) -> Option<(NodeId, NodeId)>
        ensures pair { result ≡ first_cut_off (living_now self.now) }
        ensures first { IfSome result (λ p. IsFirstCutOff (living_now self.now) p.0 p.1) }
        ensures none { IsNone result ↔ ((a b : ℕ) → a < self.now.routes.nodes → b < self.now.routes.nodes →
            AreJoined (living_now self.now) a b) }
    {
        self.routes.cut_off(self.dead)
    }

    /// Makes the routes anew and drops every message; the answer is how many there were. It is refused where two nodes
    /// are cut off from each other.
    pub fn recover(&mut self) -> Result<u32, (NodeId, NodeId)>
        ensures dropped { IfOk result (λ count. count ≡ length self.old.flights) }
        ensures recovered { IsOk result → self.new ≡ record self.old { routes = living_now self.old; flights = [] } }
        ensures refused { OnErr result (self.new ≡ self.old) }
        ensures cut_off { IfSome (first_cut_off (living_now self.old)) (λ p. result ≡ Err p) }
        ensures joined { IsNone (first_cut_off (living_now self.old)) → IsOk result }
    {
        self.routes.replan(self.dead)?;
        let dropped = self.messages.len() as u32;
        self.messages.clear();
        Ok(dropped)
    }
}
