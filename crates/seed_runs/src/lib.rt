//! A run with its statistics, in an order or by threads, and runs in an order for each seed of a range, of which the report has a
//! block each.
//!
//! The layer above knows both as lists of pieces. Of one run the sinks have all that `ordered_run` or `node_run` puts of it, and then
//! the lines of its statistics. Of a range they have a block a seed, in order of the seeds: a line that names the seed; all that a run with this
//! seed alone puts, with its statistics where they are asked for; and a line that says how it ended. So a block is a function of
//! program, sizes, rules, budget, order and seed, and a range that is parted puts the same. A run has had all its turns before
//! anything of it is put: where memory is lacking for one, the blocks before it are whole, and of it there is nothing. Up to four runs
//! have their turns side by side, and where memory is lacking for that, one has them alone; the blocks come in order of the seeds, and
//! no clause says which runs were had together. Nothing here knows words, files or statuses.
#![tactic(auto)]

mod block;
mod counted;
mod group;
mod job;
mod laws;
mod lines;
mod play;
mod putting;
mod seeds;

pub use counted::{run_counted, run_counted_by_threads};
pub use job::{SeedRuns, SeedsFault};
pub use laws::parted_ranges_put_the_same;
pub use ordered_run;
pub use ordered_run::node_run::{Ending, Run, RunFault, RunShowing};
pub use seeds::run_seeds;
pub use turn_orders::Order;
