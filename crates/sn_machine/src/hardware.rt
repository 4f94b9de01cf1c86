//! The parts of a machine together, and what an event does to them.
ghost use Rattle.std.specs.Prelude.{◌≡◌, ℕ, ◌<◌, ◌≤◌, true, length, IfOk, OnOk, OnErr};
ghost use Rattle.sn_base.specs.Config.{config_fits};
ghost use Rattle.sn_base.specs.Events.{event_fits, block_fits};
ghost use Rattle.sn_model.specs.Step.{step_of};
ghost use Rattle.sn_model.specs.Machine.{start_of};
ghost use Rattle.sn_machine.specs.Parts.{state_of, sent_of, IsWhole, HasRoom, Does};
ghost use Rattle.sn_machine.specs.Sound.{IsSound};

use crate::processor::Processor;
use output_commit::OutBuffer;
use sn_base::{Answer, Event, Image, Interval};
use sn_fabric::Fabric;
use sn_history::History;
use sn_model::Sent;
use validation::Controller;

/// The fabric and a processor for each node, the service controller, and what waits for a validation.
#[derive(Drop)]
pub struct Hardware {
    pub fabric: Fabric,
    pub processors: Vec<Processor>,
    pub controller: Controller,
    pub history: History,
    pub output: OutBuffer,
    // Whether the last event was one of the fabric, so that what the fabric sent last is the event's.
    pub is_carried: bool,
}

impl Hardware {
    /// What an event does.
    #[tactic(auto, unfolding(sn_model::specs::Step::step_of))]
    pub fn apply(&mut self, image: &Image, event: Event) -> Answer
        requires whole { IsWhole self.old }
        requires sound { IsSound (state_of self.old) }
        requires fits { event_fits (length self.old.fabric.fabric.nodes) event ≡ true }
        requires room { HasRoom 1 self.old }
        ensures done { Does self.old self.new result (step_of image.now self.old.fabric.config (state_of self.old) event) }
        ensures block { block_fits event ≡ true }
    {
        match event {
            Event::Step(node) => self.step(image, node),
            Event::Evict(node, block) => self.evict(node, block),
            Event::Edge(node) => self.edge(node),
            Event::Hop(id) => self.hop(id),
            Event::Deliver(id) => self.deliver(id),
            Event::Lose(id) => self.lose(id),
            Event::Kill(switch) => self.kill(switch),
            Event::Report(node) => self.report(node),
            Event::Validate => self.validate(),
            Event::Recover => self.recover(),
            Event::Input(node, byte) => self.give(node, byte),
        }
    }

    /// The answer that `apply` would give now.
    #[tactic(auto, unfolding(sn_model::specs::Step::step_of, sn_model::specs::FabricEvents::moved_by))]
    pub fn foresee(&self, image: &Image, event: Event) -> Answer
        requires whole { IsWhole self.now }
        requires sound { IsSound (state_of self.now) }
        requires fits { event_fits (length self.now.fabric.fabric.nodes) event ≡ true }
        ensures { result ≡ (step_of image.now self.now.fabric.config (state_of self.now) event).answer }
    {
        match event {
            Event::Step(node) => self.foresee_step(image, node),
            Event::Validate => self.foresee_validate(),
            Event::Input(_, _) => Answer::Given,
            event => self.fabric.foresee(event, self.point()),
        }
    }

    /// The recovery point.
    pub fn point(&self) -> Interval
        requires { IsWhole self.now }
        ensures { result ≡ self.now.fabric.fabric.point }
    {
        self.controller.point()
    }

    pub fn sent(&self) -> &[Sent]
        ensures same { result.now ≡ sent_of self.now }
        ensures few { length result.now ≤ 17 }
    {
        if self.is_carried {
            self.fabric.sent()
        } else {
            &[]
        }
    }
}
