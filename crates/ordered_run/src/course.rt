//! A run between two turns.
use rand_pcg::Pcg32;
use run_journals::JournalEntry;
use sn_base::Answer;
use sn_driver::Driver;
use sn_machine::Machine;
use turn_orders::Scheduler;

/// A machine, who has its next turn and what is drawn in it, and what the turns so far did, with room for the budget.
#[derive(Drop)]
pub(crate) struct Course {
    pub machine: Machine,
    pub driver: Driver,
    pub scheduler: Scheduler,
    pub generators: Vec<Pcg32>,
    pub journal: Vec<JournalEntry>,
    pub answers: Vec<Answer>,
    pub seed: u64,
    pub budget: u32,
}
