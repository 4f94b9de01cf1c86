//! Whose turn is next, where turns are had one after another, what the worker draws in it, and what is noted of it.
//!
//! A scheduler gives the worker of each turn: worker 0 to the last and round again, or one that it draws. Beside it each worker has
//! a generator of its own, and draws in its turns alone. The layer above has the turns; nothing here knows a machine.
#![tactic(auto)]

mod draws;
mod laws;
mod noting;
mod order;
mod scheduler;

pub use draws::{draw, generators};
pub use laws::{no_worker_draws_as_the_scheduler, turns_are_of_workers};
pub use noting::note;
pub use order::Order;
pub use scheduler::Scheduler;
