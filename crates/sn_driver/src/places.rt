//! A node's list, by its places: it is counted and read, and never made.
ghost use Rattle.std.specs.Prelude.{◌≡◌, ◌*◌, ◌+◌, ◌<◌, ◌≤◌, true, None, List, ◌++◌, length, map, filter_map, slice_get, slice_index_or};
ghost use Rattle.std.specs.Prelude.{IfSome};
ghost use Rattle.sn_base.specs.declared.event.Event.{Event};
ghost use Rattle.sn_base.specs.Events.{event_fits};
ghost use Rattle.sn_base.specs.declared.event.Event.TheVariants.{Step};
ghost use Rattle.due_events.specs.Lists.{answer_foreseen, delivery, hop, edge, report, own_places, places_of, list_of};
ghost use Rattle.due_events.specs.Due.{event_picked};
ghost use Rattle.sn_driver.specs.Found.{HasFound};
ghost use Rattle.sn_driver.specs.Overview.{IsOverview};

use crate::answers::{is_edged, is_reported};
use crate::driver::Driver;
use crate::found::Found;
use crate::moves::{delivery, eviction, hop, step, validation};
use crate::overview::Overview;
use due_events::sn_machine::Machine;
use sn_base::{Answer, Event, NodeId};

/// Finds the deliveries of the messages in flight, after what is found already.
fn find_deliveries(machine: &Machine, node: NodeId, found: &mut Found)
    requires here { node < machine.now.config.nodes }
    requires room { found.old.count ≤ 1024 }
    ensures found { (events : List Event) → HasFound machine.now.config.nodes events found.old
        → HasFound machine.now.config.nodes (events ++ filter_map (λ place. place)
        (map (delivery machine.now.image machine.now.config machine.now.state node) machine.now.state.fabric.net.flights)) found.new }
    ensures few { found.new.count ≤ found.old.count + 1024 }
{
    let flights = machine.net().count();
    'places: for place in 0..flights {
        if let Some(event) = delivery(machine, node, place) {
            found.add(event);
        }
    }
}

/// Finds the hops of the messages in flight, after what is found already.
fn find_hops(machine: &Machine, node: NodeId, found: &mut Found)
    requires room { found.old.count ≤ 1024 }
    ensures found { (events : List Event) → HasFound machine.now.config.nodes events found.old
        → HasFound machine.now.config.nodes (events ++ filter_map (λ place. place)
        (map (hop node) machine.now.state.fabric.net.flights)) found.new }
    ensures few { found.new.count ≤ found.old.count + 1024 }
{
    let flights = machine.net().count();
    'places: for place in 0..flights {
        if let Some(event) = hop(machine, node, place) {
            found.add(event);
        }
    }
}

/// Finds the deliveries and then the hops of the messages in flight: of those alone that stand at the node.
fn find_moves(machine: &Machine, node: NodeId, overview: &Overview) -> Found
    requires here { node < machine.now.config.nodes }
    requires seen { IsOverview machine.now.state.fabric overview.now }
    ensures found { HasFound machine.now.config.nodes
        (filter_map (λ place. place) (map (delivery machine.now.image machine.now.config machine.now.state node) machine.now.state.fabric.net.flights)
        ++ filter_map (λ place. place) (map (hop node) machine.now.state.fabric.net.flights)) result }
    ensures few { result.count ≤ 2048 }
{
    // For the prover alone: no two messages have the same number.
    let _count = machine.net().count();
    let mut found = Found::none();
    if overview.occupied[usize::from(node.number())] {
        find_deliveries(machine, node, &mut found);
        find_hops(machine, node, &mut found);
    }
    found
}

impl Driver {
    /// The node's clock edge, where it has retired enough, can't retire, or is behind.
    fn edge(&self, machine: &Machine, node: NodeId, overview: &Overview) -> Option<Event>
        requires here { node < machine.now.config.nodes }
        requires seen { IsOverview machine.now.state.fabric overview.now }
        ensures same { result ≡ edge self.now.rules machine.now.image machine.now.config machine.now.state self.now.numbers node }
        ensures fits { IfSome result (λ event. event_fits machine.now.config.nodes event ≡ true) }
    {
        let has_retired = self.retired[usize::from(node.number())] >= self.rules.interval;
        let is_behind = machine.now(node) < overview.latest;
        if !has_retired && machine.core(node).is_running() && !is_behind {
            return None;
        }
        if is_edged(&machine.foresee(Event::Edge(node))) {
            Some(Event::Edge(node))
        } else {
            None
        }
    }

    /// The node's report, where it would tell of a later checkpoint than before.
    fn report(&self, machine: &Machine, node: NodeId) -> Option<Event>
        requires { node < machine.now.config.nodes }
        ensures same { result ≡ report machine.now.image machine.now.config machine.now.state self.now.numbers node }
        ensures fits { IfSome result (λ event. event_fits machine.now.config.nodes event ≡ true) }
    {
        let is_later = machine.ready(node) > self.told[usize::from(node.number())];
        if is_later && is_reported(&machine.foresee(Event::Report(node))) {
            Some(Event::Report(node))
        } else {
            None
        }
    }

    /// The event at a place of what the node may do itself, where there is one.
    fn own_event(
        &self,
        machine: &Machine,
        node: NodeId,
        overview: &Overview,
        answer: &Answer,
        place: usize,
    ) -> Option<Event>
        requires here { node < machine.now.config.nodes }
        requires seen { IsOverview machine.now.state.fabric overview.now }
        requires foreseen { answer.now ≡ answer_foreseen machine.now.image machine.now.config machine.now.state (Step node) }
        requires there { place < 5 }
        ensures same { result ≡
            slice_index_or (own_places self.now.rules machine.now.image machine.now.config machine.now.state self.now.numbers node) place None }
        ensures fits { IfSome result (λ event. event_fits machine.now.config.nodes event ≡ true) }
    {
        if place == 0 {
            eviction(machine, node, answer)
        } else if place == 1 {
            self.edge(machine, node, overview)
        } else if place == 2 {
            self.report(machine, node)
        } else if place == 3 {
            validation(machine, node)
        } else {
            step(machine, node, answer)
        }
    }

    /// The event at a place of the node's list, where there is one: first those of the messages in flight, their deliveries
    /// and then their hops, and then the node's own. The answer is the one that the node's step would have now.
    fn at_place(
        &self,
        machine: &Machine,
        node: NodeId,
        overview: &Overview,
        answer: &Answer,
        place: usize,
    ) -> Option<Event>
        requires here { node < machine.now.config.nodes }
        requires seen { IsOverview machine.now.state.fabric overview.now }
        requires there { place < length (places_of self.now.rules machine.now.image machine.now.config machine.now.state self.now.numbers node) }
        requires foreseen { answer.now ≡ answer_foreseen machine.now.image machine.now.config machine.now.state (Step node) }
        ensures same { result ≡
            slice_index_or (places_of self.now.rules machine.now.image machine.now.config machine.now.state self.now.numbers node) place None }
        ensures fits { IfSome result (λ event. event_fits machine.now.config.nodes event ≡ true) }
    {
        let flights = machine.net().count();
        if place < flights {
            return delivery(machine, node, place);
        }
        if place - flights < flights {
            return hop(machine, node, place - flights);
        }
        self.own_event(machine, node, overview, answer, place - flights - flights)
    }

    /// How many places the node's list has.
    fn places(&self, machine: &Machine, node: NodeId) -> usize
        ensures same { result ≡
            length (places_of self.now.rules machine.now.image machine.now.config machine.now.state self.now.numbers node) }
        ensures few { result ≤ 2053 }
    {
        let flights = machine.net().count();
        flights + flights + 5
    }

    /// How many events the node's list has, and the first of them.
    fn found(&self, machine: &Machine, node: NodeId, overview: &Overview) -> Found
        requires here { node < machine.now.config.nodes }
        requires seen { IsOverview machine.now.state.fabric overview.now }
        ensures found { HasFound machine.now.config.nodes (list_of self.now.rules machine.now.image machine.now.config machine.now.state self.now.numbers node) result }
    {
        let answer = machine.foresee(Event::Step(node));
        let mut found = find_moves(machine, node, overview);
        'own: for place in 0..5 {
            if let Some(event) = self.own_event(machine, node, overview, &answer, place) {
                found.add(event);
            }
        }
        found
    }

    /// The event of the node's list with so many before it.
    #[tactic(auto, using(crate::proofs::Lists::from_place))]
    fn nth(
        &self,
        machine: &Machine,
        node: NodeId,
        overview: &Overview,
        before: usize,
    ) -> Option<Event>
        requires here { node < machine.now.config.nodes }
        requires seen { IsOverview machine.now.state.fabric overview.now }
        ensures same { result ≡
            slice_get (list_of self.now.rules machine.now.image machine.now.config machine.now.state self.now.numbers node) before }
        ensures fits { IfSome result (λ event. event_fits machine.now.config.nodes event ≡ true) }
    {
        let answer = machine.foresee(Event::Step(node));
        let mut left = before;
        'places: for place in 0..self.places(machine, node) {
            if let Some(event) = self.at_place(machine, node, overview, &answer, place) {
                if left == 0 {
                    return Some(event);
                }
                left -= 1;
            }
        }
        None
    }

    /// The event of the node's list that a pick names. None where the list is empty.
    #[tactic(auto, using(crate::proofs::Lists::nothing_of_none))]
    pub fn picked(
        &self,
        machine: &Machine,
        node: NodeId,
        overview: &Overview,
        pick: u32,
    ) -> Option<Event>
        requires here { node < machine.now.config.nodes }
        requires seen { IsOverview machine.now.state.fabric overview.now }
        ensures same { result ≡
            event_picked pick (list_of self.now.rules machine.now.image machine.now.config machine.now.state self.now.numbers node) }
        ensures fits { IfSome result (λ event. event_fits machine.now.config.nodes event ≡ true) }
    {
        let found = self.found(machine, node, overview);
        if found.count == 0 {
            return None;
        }
        let before = pick as usize % found.count;
        if before < 4 {
            return found.first[before];
        }
        self.nth(machine, node, overview, before)
    }
}
