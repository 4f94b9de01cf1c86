//! A run that a watcher looks at, with all that is put of it: the bytes that it releases, what the watcher saw, and the summary.
//!
//! The turns are had on the calling thread, by workers in rounds, and the watcher looks beside them in another. The layer above
//! knows that the events are those that were due for these turns, and that what was seen is some of what was published, in its
//! order, up to the last. That looks run beside the turns no clause says. Nothing here knows words, files or statuses.
#![tactic(auto)]

mod job;
mod looks;
mod marks;
mod monitoring;
mod reporting;
mod starting;
mod turns;

pub use job::Monitor;
pub use monitoring::monitor;
pub use node_run;
pub use node_run::{Ending, RunFault};
