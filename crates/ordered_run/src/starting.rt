//! A run before its first turn.
ghost use Rattle.std.specs.Prelude.{◌≡◌, ◌≤◌, ◌+◌, true, [], length, vec_capacity, IfOk};
ghost use Rattle.sn_base.specs.declared.limits.TheConstants.{EVENTS};
ghost use Rattle.sn_base.specs.Config.{config_fits};
ghost use Rattle.sn_base.specs.Rules.{AreRules};
ghost use Rattle.sn_machine.specs.Machine.{machine_with_room};
ghost use Rattle.turn_orders.specs.Drawn.{AreDrawn};
ghost use Rattle.ordered_run.specs.Stands.{Stands, IsReady, its_start};

use crate::course::Course;
use node_run::machine_for;
use rand_pcg::Pcg32;
use run_journals::JournalEntry;
use sn_base::{Answer, Config, Image, Memory, Rules};
use sn_driver::Driver;
use std::alloc::Global;
use turn_orders::{Order, Scheduler, generators};

// What the turns fill.
#[derive(Drop)]
struct Room {
    generators: Vec<Pcg32>,
    journal: Vec<JournalEntry>,
    answers: Vec<Answer>,
}

fn room_for(alloc: Global, seed: u64, budget: u32, workers: u8) -> Result<Room, Memory>
    ensures drawn { IfOk result (λ room. AreDrawn seed [] room.generators.items × (length room.generators.items ≡ workers)) }
    ensures journal { IfOk result (λ room. (room.journal.items ≡ []) × (budget ≤ vec_capacity room.journal)) }
    ensures answers { IfOk result (λ room. (room.answers.items ≡ []) × (budget ≤ vec_capacity room.answers)) }
{
    let generators = generators(alloc, seed, workers)?;
    let journal = Vec::with_capacity(alloc, budget as usize)?;
    let answers = Vec::with_capacity(alloc, budget as usize)?;
    Ok(Room {
        generators,
        journal,
        answers,
    })
}

/// Takes all memory of the run.
pub(crate) fn start(
    alloc: Global,
    program: Image,
    config: Config,
    rules: Rules,
    seed: u64,
    budget: u32,
    order: Order,
) -> Result<Course, Memory>
    requires sizes { config_fits config ≡ true }
    requires ruled { AreRules rules config.nodes }
    requires few { budget ≤ EVENTS }
    ensures stands { IfOk result (λ c. Stands c) }
    ensures ready { IfOk result (λ c. IsReady c) }
    ensures began { IfOk result
        (λ c. its_start c ≡ record { image = program; config = config; rules = rules; seed = seed; budget = budget }) }
    ensures order { IfOk result (λ c. c.scheduler.order ≡ order) }
    ensures machine { IfOk result (λ c. c.machine ≡ machine_with_room program config (budget + 1)) }
    ensures journal { IfOk result (λ c. c.journal.items ≡ []) }
    ensures fresh { IfOk result (λ c. c.machine.state.released ≡ []) }
{
    let nodes = config.nodes;
    let Ok(room) = room_for(alloc, seed, budget, nodes) else {
        return Err(Memory);
    };
    let Ok(machine) = machine_for(alloc, program, config, budget) else {
        drop(room);
        return Err(Memory);
    };
    let driver = Driver::new(rules, nodes);
    let scheduler = Scheduler::new(order, seed, nodes);
    let Room {
        generators,
        journal,
        answers,
    } = room;
    Ok(Course {
        machine,
        driver,
        scheduler,
        generators,
        journal,
        answers,
        seed,
        budget,
    })
}
