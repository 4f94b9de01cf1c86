//! A run whose turns are had in an order, on the calling thread, with all that is put of it.
//!
//! The layer above knows of it what it knows of a run by node threads, and which journal it is: the one that follows from the
//! program, the sizes, the rules, the seed and the order. So the same words give the same bytes. What is released is put to the
//! console after the turn that releases it. `all_turns` has them with no sink, for a layer that puts what they leave itself; a count of
//! the run's statistics rides along, where that is asked for. Nothing here knows words, files or statuses.
#![tactic(auto)]

mod course;
mod laws;
mod running;
mod starting;
mod turns;

pub use laws::{an_ordered_journal_is_due, an_ordered_run_ends, same_run_same_bytes};
pub use node_run;
pub use node_run::{Ending, Run, RunFault, RunShowing, node_threads};
pub use run_statistics;
pub use running::{Turned, all_turns, run};
pub use turn_orders::Order;
