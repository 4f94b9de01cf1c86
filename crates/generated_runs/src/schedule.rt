//! The events of a generated run, each found when its turn comes.
ghost use Rattle.std.specs.Prelude.{◌≡◌, ◌≤◌, length};
ghost use Rattle.consistent_cuts.specs.Runs.{AllFit};
ghost use Rattle.due_events.specs.Numbers.{first_numbers};
ghost use Rattle.generated_runs.specs.Generated.{generated_events, generator_of};
ghost use Rattle.sn_base.specs.declared.limits.TheConstants.{EVENTS};

use rand_core::SeedableRng;
use rand_core::utils::NextWord;
use rand_pcg::Pcg32;
use script_replay::Schedule;
use sn_base::{Answer, Event, Rules};
use sn_driver::Driver;
use sn_machine::Machine;
use std::marker::Model;

/// What is left of a generated run. Contracts see the driver's numbers, the number of the next turn, how many turns are left, and
/// the generator.
#[derive(Drop)]
pub struct Generated {
    driver: Driver,
    turn: u32,
    left: u32,
    generator: Pcg32,
}

impl Model for Generated {
    ghost use Rattle.std.specs.Prelude.{◌≡◌, ◌+◌, ◌≤◌};
    ghost use Rattle.generated_runs.specs.Generated.{GeneratedData, generated_rules};
    ghost use Rattle.sn_base.specs.declared.limits.TheConstants.{EVENTS};

    ghost Value = { GeneratedData };

    ghost view = { λ g. record { numbers = g.driver.numbers; turn = g.turn; left = g.left; generator = g.generator } };

    ghost invariant = { λ g. (g.driver.rules ≡ generated_rules) × (g.driver.nodes ≡ 4) × (g.turn + g.left ≤ EVENTS) ×
        (g.driver.numbers.done + g.left ≤ EVENTS) };
}

impl Generated {
    /// A run of so many events, all of which are left: those that are due, one after another, in turns of workers 0 to 3 and
    /// again from 0, with the numbers that the generator gives that the size seeds.
    pub fn new(size: u32) -> Generated
        requires { size ≤ EVENTS }
        ensures start { result ≡ record { numbers = first_numbers; turn = 0; left = size; generator = generator_of size } }
        ensures count { length (generated_events size) ≡ size }
        ensures fit { AllFit 4 (generated_events size) }
    {
        let rules = Rules {
            interval: 20,
            wait: 2_000,
            lose_every: 97,
            kill: None,
        };
        let driver = Driver::new(rules, 4);
        let generator = Pcg32::seed_from_u64(u64::from(size));
        Generated {
            driver,
            turn: 0,
            left: size,
            generator,
        }
    }
}

impl Schedule for Generated {
    ghost use Rattle.std.specs.Prelude.{◌≡◌, ◌+◌, ◌<◌};
    ghost use Rattle.due_events.specs.Numbers.{numbers_after};
    ghost use Rattle.generated_runs.specs.Generated.{still_due};
    ghost use Rattle.sn_base.specs.declared.limits.TheConstants.{EVENTS};

    ghost left = { λ g image config s. still_due image config s g.numbers g.left g.turn g.generator };

    ghost noted = { λ g event answer image config s.
        still_due image config s (numbers_after g.numbers event answer) g.left g.turn g.generator };

    ghost serves = { λ g nodes. nodes ≡ 4 };

    ghost awaits = { λ g. g.numbers.done + g.left < EVENTS };

    fn next(&mut self, machine: &Machine) -> Option<Event> {
        if self.left == 0 {
            return None;
        }
        let pick = self.generator.next_word();
        let event = self.driver.due(machine, self.turn % 4, pick);
        self.turn += 1;
        self.left -= 1;
        event
    }

    fn note(&mut self, event: &Event, answer: &Answer) {
        self.driver.note(event, answer);
    }
}
