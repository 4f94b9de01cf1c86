//! A run by node threads, with all that is put of it: the bytes that it releases, and then the report.
//!
//! The layer above knows of it that there is a due journal, as whose end it ended: the console has the output of its committed
//! trace, and the report the journal, or that trace, or its rows, or nothing, and then the summary. What is put to the console, and the
//! summary, are those of a replay of the journal's events, and a report with the journal is read as a script of just these
//! events. Where the console failed there is a due journal too, of whose output it has the beginning, and the report has
//! nothing. Nothing here knows words, files or statuses.
#![tactic(auto)]

mod ending;
mod job;
mod reporting;
mod room;
mod rows;
mod running;
mod starting;

pub use ending::{Ending, how_ended};
pub use job::{Run, RunShowing};
pub use node_threads;
pub use node_threads::shared_machine;
pub use reporting::put_ended;
pub use room::{ReportRoom, report_room};
pub use running::{RunFault, run, shared_for};
pub use sn_base::Rules;
pub use starting::machine_for;
