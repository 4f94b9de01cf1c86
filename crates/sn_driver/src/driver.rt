//! The driver: its rules, its numbers, and what is due.
ghost use Rattle.std.specs.Prelude.{◌≡◌, ◌*◌, ◌<◌, ◌≤◌, true, false, Some, IfSome};
ghost use Rattle.sn_base.specs.Events.{event_fits};
ghost use Rattle.due_events.specs.Numbers.{first_numbers, numbers_after};
ghost use Rattle.due_events.specs.Due.{killing, or_loss, first_picked, event_of_lists, next_due, is_over};
ghost use Rattle.due_events.specs.Machine.{IsApplied};
ghost use Rattle.sn_driver.specs.Turns.{due_at, Took, IsLater};

use crate::overview::Overview;
use crate::turn::Turn;
use due_events::sn_machine::Machine;
use sn_base::{Answer, Event, Interval, NodeId, Rules};
use std::marker::Model;

/// A driver of machines of so many nodes. Contracts see its rules, that number, and its numbers.
#[derive(Drop)]
pub struct Driver {
    pub(crate) rules: Rules,
    nodes: u8,
    pub(crate) done: u32,
    pub(crate) since: u32,
    pub(crate) moves: u32,
    pub(crate) retired: [u32; 16],
    pub(crate) told: [Interval; 16],
    pub(crate) cut_off: Option<(NodeId, NodeId)>,
}

impl Model for Driver {
    ghost use Rattle.due_events.specs.Numbers.{Numbers};
    ghost use Rattle.sn_base.specs.Rules.{AreRules};
    ghost use Rattle.sn_driver.specs.Driver.{DriverData, AreNumbers};

    ghost Value = { DriverData };

    ghost view = { λ d. record {
      rules = d.rules;
      nodes = d.nodes;
      numbers = record { done = d.done; since = d.since; moves = d.moves; retired = d.retired; told = d.told; cut_off = d.cut_off };
    } };

    ghost invariant = { λ d. AreRules d.rules d.nodes ×
        AreNumbers (record { done = d.done; since = d.since; moves = d.moves; retired = d.retired; told = d.told; cut_off = d.cut_off }) };
}

impl Driver {
    /// A driver that has applied no event.
    pub fn new(rules: Rules, nodes: u8) -> Driver
        requires some { 1 ≤ nodes }
        requires few { nodes ≤ 16 }
        requires interval { 1 ≤ rules.interval }
        requires wait { 1 ≤ rules.wait }
        requires kill { IfSome rules.kill (λ rule. rule.0 < 2 * nodes) }
        ensures { result ≡ record { rules = rules; nodes = nodes; numbers = first_numbers } }
    {
        Driver {
            rules,
            nodes,
            done: 0,
            since: 0,
            moves: 0,
            retired: [0; 16],
            told: [0; 16],
            cut_off: None,
        }
    }

    /// The event that is due for a worker with the number that it drew. None where the machine is over or a recovery found
    /// nodes cut off.
    #[tactic(auto, unfolding(due_events::specs::Due::due_of))]
    pub fn due(&self, machine: &Machine, worker: u32, pick: u32) -> Option<Event>
        requires nodes { machine.now.config.nodes ≡ self.now.nodes }
        requires worker { worker < self.now.nodes }
        requires life { self.now.numbers.done < 4000000000 }
        ensures due { result ≡ due_at self.now machine.now worker pick }
        ensures fits { IfSome result (λ event. event_fits self.now.nodes event ≡ true) }
    {
        if machine.over() || self.cut_off.is_some() {
            return None;
        }
        Some(self.next(machine, worker, pick))
    }

    /// Applies the event that is due for a worker with the number that it drew, and counts it.
    #[tactic(auto, unfolding(due_events::specs::Due::due_of))]
    pub fn turn(&mut self, machine: &mut Machine, worker: u32, pick: u32) -> Turn
        requires nodes { machine.old.config.nodes ≡ self.old.nodes }
        requires worker { worker < self.old.nodes }
        requires life { self.old.numbers.done < 4000000000 }
        requires room { 1 ≤ machine.old.spare }
        ensures took { Took self.old machine.old worker pick result self.new machine.new }
        ensures later { IsLater self.old machine.old self.new machine.new }
    {
        if machine.over() {
            return Turn::Over;
        }
        if let Some((first, second)) = self.cut_off {
            return Turn::CutOff(first, second);
        }
        let event = self.next(machine, worker, pick);
        let answer = self.apply(machine, &event);
        Turn::Did(event, answer)
    }

    /// Applies an event and counts it.
    fn apply(&mut self, machine: &mut Machine, event: &Event) -> Answer
        requires fits { event_fits machine.old.config.nodes event.now ≡ true }
        requires life { self.old.numbers.done < 4000000000 }
        requires room { 1 ≤ machine.old.spare }
        ensures applied { IsApplied machine.old machine.new event.now result }
        ensures counted { self.new ≡ record self.old { numbers = numbers_after self.old.numbers event.now result } }
    {
        let answer = machine.apply(*event);
        self.note(event, &answer);
        answer
    }

    fn next(&self, machine: &Machine, worker: u32, pick: u32) -> Event
        requires nodes { machine.now.config.nodes ≡ self.now.nodes }
        requires worker { worker < self.now.nodes }
        requires life { self.now.numbers.done < 4000000000 }
        ensures due { result ≡ next_due self.now.rules machine.now.image machine.now.config machine.now.state self.now.numbers worker pick }
        ensures fits { event_fits self.now.nodes result ≡ true }
    {
        if let Some(event) = self.killing(machine) {
            return event;
        }
        match self.listed(machine, worker, pick) {
            Some(event) => event,
            None => Event::Recover,
        }
    }

    /// The death of the rule's switch, once it is time and where it lives.
    fn killing(&self, machine: &Machine) -> Option<Event>
        requires { machine.now.config.nodes ≡ self.now.nodes }
        ensures same { result ≡ killing machine.now.state self.now.numbers self.now.rules.kill }
        ensures fits { IfSome result (λ event. event_fits self.now.nodes event ≡ true) }
    {
        let (switch, after) = self.rules.kill?;
        if after <= self.done && !machine.is_dead(switch) {
            Some(Event::Kill(switch))
        } else {
            None
        }
    }

    /// What the nodes' lists give, unless a recovery is due.
    fn listed(&self, machine: &Machine, worker: u32, pick: u32) -> Option<Event>
        requires nodes { machine.now.config.nodes ≡ self.now.nodes }
        requires worker { worker < self.now.nodes }
        requires life { self.now.numbers.done < 4000000000 }
        ensures same { result ≡ event_of_lists self.now.rules machine.now.image machine.now.config machine.now.state self.now.numbers worker pick }
        ensures fits { IfSome result (λ event. event_fits self.now.nodes event ≡ true) }
    {
        if self.since >= self.rules.wait {
            return None;
        }
        let event = self.first_picked(machine, worker, pick)?;
        Some(self.or_loss(event))
    }

    /// The picked event of the first node, from the worker's on round all nodes, whose list isn't empty.
    fn first_picked(&self, machine: &Machine, worker: u32, pick: u32) -> Option<Event>
        requires { worker < machine.now.config.nodes }
        ensures same { result ≡
            first_picked self.now.rules machine.now.image machine.now.config machine.now.state self.now.numbers pick machine.now.config.nodes worker }
        ensures fits { IfSome result (λ event. event_fits machine.now.config.nodes event ≡ true) }
    {
        let nodes = machine.config().nodes;
        let overview = Overview::of(machine);
        let mut number = worker as u8;
        'turns: for _turn in 0..nodes {
            let picked = self.picked(machine, NodeId::numbered(number), &overview, pick);
            if picked.is_some() {
                return picked;
            }
            number = (number + 1) % nodes;
        }
        None
    }

    /// The event, or the loss of its message where it moves one and the next that moves is lost.
    fn or_loss(&self, event: Event) -> Event
        requires { self.now.numbers.done < 4000000000 }
        ensures same { result ≡ or_loss self.now.rules self.now.numbers event }
        ensures fits { event_fits self.now.nodes event ≡ true → event_fits self.now.nodes result ≡ true }
    {
        let every = self.rules.lose_every;
        if every == 0 || (self.moves + 1) % every != 0 {
            return event;
        }
        match event {
            Event::Hop(id) | Event::Deliver(id) => Event::Lose(id),
            other => other,
        }
    }
}
