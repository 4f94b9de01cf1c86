//! The machine before its run.
ghost use Rattle.std.specs.Prelude.{◌≡◌, ◌+◌, ◌≤◌, [], max, vec_len, vec_capacity, IfOk, OnOk};
ghost use Rattle.sn_model.specs.Machine.{start_of};
ghost use Rattle.run_journals.specs.Numbers.{first_numbers};
ghost use Rattle.sn_console.specs.Ends.{bytes_passed, free_places};
ghost use Rattle.shared_machine.specs.Pickers.{AreDrawn};
ghost use Rattle.shared_machine.specs.Shared.{begins_with, first_locked};
ghost use Rattle.sn_base.specs.declared.limits.TheConstants.{EVENTS};

use crate::locked::Locked;
use crate::picker::Picker;
use crate::run_name::RunName;
use run_journals::JournalEntry;
use run_journals::sn_machine::Machine;
use sn_base::{Answer, Memory};
use sn_console::Outbox;
use sn_driver::Driver;
use std::alloc::Global;
use std::marker::Model;
use std::sync::ledger::Book;

/// A machine at its start and a driver without a turn, with all memory that their run will take. Contracts see both, the run's
/// seed, and how many events it does at most.
#[derive(Drop)]
pub struct SharedMachine {
    machine: Machine,
    driver: Driver,
    pickers: Vec<Picker>,
    journal: Vec<JournalEntry>,
    answers: Vec<Answer>,
    seed: u64,
    budget: u32,
}

impl Model for SharedMachine {
    ghost use Rattle.std.specs.Prelude.{◌≡◌, ◌≤◌, [], vec_capacity};
    ghost use Rattle.shared_machine.specs.Shared.{SharedData};
    ghost use Rattle.shared_machine.specs.Invariant.{CanBegin};

    ghost Value = { SharedData };

    ghost view = { λ s. record { machine = s.machine; driver = s.driver; seed = s.seed; budget = s.budget } };

    ghost invariant = { λ s.
        CanBegin (record { machine = s.machine; driver = s.driver; seed = s.seed; budget = s.budget }) s.pickers.items
        × (s.journal.items ≡ []) × (s.answers.items ≡ []) × (s.budget ≤ vec_capacity s.journal) × (s.budget ≤ vec_capacity s.answers) };
}

/// The workers' generators at the start.
fn pickers(alloc: Global, seed: u64, workers: u8) -> Result<Vec<Picker>, Memory>
    ensures { IfOk result (λ v. AreDrawn seed [] v.items × (vec_len v ≡ workers)) }
{
    let mut pickers = Vec::with_capacity(alloc, usize::from(workers))?;
    'workers: for worker in 0..workers {
        pickers.push(Picker::new(seed, u32::from(worker)))?;
    }
    Ok(pickers)
}

/// What a run fills: the workers' generators, and a journal and its answers without a turn.
#[derive(Drop)]
struct Room {
    pickers: Vec<Picker>,
    journal: Vec<JournalEntry>,
    answers: Vec<Answer>,
}

/// All memory of a run of so many events.
fn room_for(alloc: Global, machine: &mut Machine, budget: u32, seed: u64) -> Result<Room, Memory>
    requires fresh { machine.old.applied ≡ 0 }
    requires budget { budget ≤ EVENTS }
    ensures machine { OnOk result (machine.new ≡ record machine.old { spare = max machine.old.spare (budget + 1) }) }
    ensures pickers { IfOk result
        (λ room. AreDrawn seed [] room.pickers.items × (vec_len room.pickers ≡ machine.old.config.nodes)) }
    ensures journal { IfOk result (λ room. (room.journal.items ≡ []) × (budget ≤ vec_capacity room.journal)) }
    ensures answers { IfOk result (λ room. (room.answers.items ≡ []) × (budget ≤ vec_capacity room.answers)) }
{
    // One event more than the run does, so that a driver may always be asked for one.
    machine.reserve(budget + 1)?;
    let pickers = pickers(alloc, seed, machine.config().nodes)?;
    let journal = Vec::with_capacity(alloc, budget as usize)?;
    let answers = Vec::with_capacity(alloc, budget as usize)?;
    Ok(Room {
        pickers,
        journal,
        answers,
    })
}

impl SharedMachine {
    /// All memory of the run is taken here.
    pub fn new(
        alloc: Global,
        machine: Machine,
        driver: Driver,
        budget: u32,
        seed: u64,
    ) -> Result<SharedMachine, Memory>
        requires fresh { (machine.applied ≡ 0) × (machine.state ≡ start_of machine.image machine.config.nodes) }
        requires nodes { driver.nodes ≡ machine.config.nodes }
        requires first { driver.numbers ≡ first_numbers }
        requires budget { budget ≤ EVENTS }
        ensures { IfOk result (λ s. s ≡ record {
          machine = record machine { spare = max machine.spare (budget + 1) };
          driver = driver;
          seed = seed;
          budget = budget;
        }) }
    {
        let mut machine = machine;
        let Ok(room) = room_for(alloc, &mut machine, budget, seed) else {
            drop(machine);
            return Err(Memory);
        };
        let Room {
            pickers,
            journal,
            answers,
        } = room;
        Ok(SharedMachine {
            machine,
            driver,
            pickers,
            journal,
            answers,
            seed,
            budget,
        })
    }

    /// How many workers the run has: one a node.
    pub fn workers(&self) -> u8
        ensures same { result ≡ self.now.machine.config.nodes }
        ensures some { (1 ≤ result) × (result ≤ 16) }
    {
        self.machine.config().nodes
    }

    /// The run's start, under its name.
    pub fn begin<L: RunName>(self, book: Book<L>, outbox: Outbox) -> Locked<L>
        requires began { begins_with self ≡ L.began }
        requires total { book.total ≡ 0 }
        requires ring { L.of_ring outbox }
        requires passed { bytes_passed outbox ≡ [] }
        ensures { result ≡ first_locked (free_places outbox) self }
    {
        let SharedMachine {
            machine,
            driver,
            pickers,
            journal,
            answers,
            seed,
            budget,
        } = self;
        Locked {
            machine,
            driver,
            pickers,
            journal,
            answers,
            seed,
            budget,
            stopped: false,
            book,
            outbox,
        }
    }
}
