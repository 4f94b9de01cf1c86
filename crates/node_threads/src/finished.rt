//! What a run leaves.
use shared_machine::sn_machine::Machine;
use shared_machine::{Finish, JournalEntry};
use sn_base::Answer;

/// The machine after a run, what was done and answered in order, and why the run ended.
#[derive(Drop)]
pub struct Finished {
    pub machine: Machine,
    pub journal: Vec<JournalEntry>,
    pub answers: Vec<Answer>,
    pub finish: Finish,
}
