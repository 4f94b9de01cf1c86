//! A watched run before its first turn.
ghost use Rattle.std.specs.Prelude.{◌≡◌, ◌+◌, ◌≤◌, true, [], vec_capacity, IfOk};
ghost use Rattle.sn_base.specs.Config.{config_fits};
ghost use Rattle.sn_base.specs.Rules.{AreRules};
ghost use Rattle.sn_model.specs.Machine.{start_of};
ghost use Rattle.node_run.specs.Pieces.{begins};
ghost use Rattle.sn_monitor.specs.Goes.{IsWatchable};
ghost use Rattle.monitor_run.specs.Shown.{MayBegin, run_of, watched_word};
ghost use Rattle.monitor_run.specs.Stands.{Stands, IsReady, IsNew, its_start};
ghost use Rattle.sn_base.specs.declared.limits.TheConstants.{EVENTS};

use crate::job::Monitor;
use crate::marks::Mark;
use crate::turns::{Turns, note_last};
use node_run::machine_for;
use sn_base::{Memory, RAM_START, Rules};
use sn_driver::Driver;
use sn_machine::Machine;
use sn_monitor::{Monitored, Watcher};
use std::alloc::Global;
use std::sync::Wait;
use turn_orders::generators;

/// A run with its watcher, and all memory that they take but for the snapshots.
pub(crate) struct Started {
    pub monitored: Monitored,
    pub watcher: Watcher,
    pub turns: Turns,
    pub looks: Vec<Mark>,
    pub seen: Vec<Mark>,
}

// What the turns fill, and the watcher's marks.
#[derive(Drop)]
struct Room {
    turns: Turns,
    looks: Vec<Mark>,
    seen: Vec<Mark>,
}

// What the turns of so many workers fill.
fn turns_for(alloc: Global, seed: u64, budget: u32, workers: u8) -> Result<Turns, Memory>
    requires { budget ≤ EVENTS }
    ensures new { IfOk result (λ t. IsNew workers t) }
    ensures same { IfOk result (λ t. (t.seed ≡ seed) × (t.budget ≡ budget)) }
{
    Ok(Turns {
        generators: generators(alloc, seed, workers)?,
        journal: Vec::with_capacity(alloc, budget as usize)?,
        answers: Vec::with_capacity(alloc, budget as usize)?,
        published: Vec::with_capacity(alloc, budget as usize + 1)?,
        seed,
        budget,
    })
}

fn room_for(alloc: Global, seed: u64, budget: u32, workers: u8) -> Result<Room, Memory>
    requires { budget ≤ EVENTS }
    ensures new { IfOk result (λ room. IsNew workers room.turns) }
    ensures same { IfOk result (λ room. (room.turns.seed ≡ seed) × (room.turns.budget ≡ budget)) }
    ensures looks { IfOk result (λ room. (room.looks.items ≡ []) × (budget + 1 ≤ vec_capacity room.looks)) }
    ensures seen { IfOk result (λ room. (room.seen.items ≡ []) × (budget + 1 ≤ vec_capacity room.seen)) }
{
    let looks = Vec::with_capacity(alloc, budget as usize + 1)?;
    let seen = Vec::with_capacity(alloc, budget as usize + 1)?;
    let turns = turns_for(alloc, seed, budget, workers)?;
    Ok(Room { turns, looks, seen })
}

// The watched run of a machine at its start, with the start's snapshot noted.
fn begin(
    rt: &impl Wait,
    alloc: Global,
    machine: Machine,
    rules: Rules,
    watch: u32,
    turns: &mut Turns,
) -> Result<(Monitored, Watcher), Memory>
    requires ruled { AreRules rules machine.config.nodes }
    requires fresh { (machine.applied ≡ 0) × (machine.state ≡ start_of machine.image machine.config.nodes) }
    requires sizes { config_fits machine.config ≡ true }
    requires room { turns.old.budget + 1 ≤ machine.spare }
    requires few { turns.old.budget ≤ EVENTS }
    requires watched { IsWatchable watch }
    requires new { IsNew machine.config.nodes turns.old }
    ensures stands { IfOk result (λ started. Stands started.0 turns.new × IsReady started.0 turns.new) }
    ensures began { IfOk result (λ started. its_start started.0 turns.new ≡ record {
      image = machine.image;
      config = machine.config;
      rules = rules;
      seed = turns.old.seed;
      budget = turns.old.budget;
    }) }
    ensures watch { IfOk result (λ started. started.0.watch ≡ watch) }
    ensures board { IfOk result (λ started. started.1.board ≡ started.0.board) }
{
    let nodes = machine.config().nodes;
    match Monitored::new(rt, alloc, machine, Driver::new(rules, nodes), watch) {
        Ok((mut monitored, watcher)) => {
            note_last(&mut monitored, &mut turns.published);
            Ok((monitored, watcher))
        }
        Err(refused) => {
            drop(refused);
            Err(Memory)
        }
    }
}

/// Takes all memory of the run but for the snapshots, and publishes the start's.
pub(crate) fn start(rt: &impl Wait, alloc: Global, job: Monitor) -> Result<Started, Memory>
    requires { MayBegin job }
    ensures stands { IfOk result (λ s. Stands s.monitored s.turns × IsReady s.monitored s.turns) }
    ensures began { IfOk result (λ s. its_start s.monitored s.turns ≡ begins (run_of job)) }
    ensures watch { IfOk result (λ s. s.monitored.watch ≡ watched_word job.watch) }
    ensures board { IfOk result (λ s. s.watcher.board ≡ s.monitored.board) }
    ensures looks { IfOk result (λ s. (s.looks.items ≡ []) × (job.budget + 1 ≤ vec_capacity s.looks)) }
    ensures seen { IfOk result (λ s. (s.seen.items ≡ []) × (job.budget + 1 ≤ vec_capacity s.seen)) }
{
    let Monitor {
        program,
        config,
        rules,
        seed,
        budget,
        watch,
    } = job;
    let Ok(room) = room_for(alloc, seed, budget, config.nodes) else {
        return Err(Memory);
    };
    let Ok(machine) = machine_for(alloc, program, config, budget) else {
        drop(room);
        return Err(Memory);
    };
    let Room {
        mut turns,
        looks,
        seen,
    } = room;
    let watch = watch.unwrap_or(RAM_START);
    let Ok((monitored, watcher)) = begin(rt, alloc, machine, rules, watch, &mut turns) else {
        drop(turns);
        return Err(Memory);
    };
    Ok(Started {
        monitored,
        watcher,
        turns,
        looks,
        seen,
    })
}
