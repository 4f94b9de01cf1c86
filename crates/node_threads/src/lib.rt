//! Node threads: workers that run a machine, each in a thread of its own, and the console beside them.
//!
//! One worker a node takes turns under one lock, until a turn is refused; one more writes what is released while they run. Once
//! all are joined the journal tells what was done: it replays to the machine, each of its events was due, and the console has
//! all that is released, once and in order. Who comes next, and that all workers run at once, no clause says. All memory is
//! taken before the first turn.
#![tactic(auto)]

mod bell;
mod closing;
mod finished;
mod pump;
mod run;
mod sleeping;
mod slots;
mod telling;
mod turnstile;

pub use finished::Finished;
pub use run::run_nodes;
pub use shared_machine;
pub use shared_machine::{Finish, JournalEntry, SharedMachine, sn_driver};
pub use telling::tell;
