//! A machine that workers share under one lock.
//!
//! The value behind the lock has one call that changes the machine: a turn of a worker. What the lock keeps stands in its type,
//! so it holds each time that the lock is taken: the journal replays to the machine's state, each of its events was due for its
//! worker with that worker's next pick, and the journal is as long as the run's ledger counts. The layer above starts the
//! workers; nothing here waits, and no turn takes memory.
#![tactic(auto)]

mod finish;
mod locked;
mod picker;
mod run_name;
mod shared;

pub use finish::Finish;
pub use locked::{Ended, Locked};
pub use run_journals::{JournalEntry, sn_machine};
pub use run_name::RunName;
pub use shared::SharedMachine;
pub use sn_driver;
