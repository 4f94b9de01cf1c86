//! A replay: events applied to a machine one after another, with all that is put of them. They are a script's, or those of
//! another schedule: which comes next, the machine may decide on which those before it were applied.
//!
//! The layer above knows it as a list of pieces, a function of the program, the machine's sizes, the events, what is to be
//! shown, and the probes that are told each event; and it knows that at every moment the committed trace is an execution of the
//! program, whose output the console has. All memory is taken before the first event. The summary, and what else stands at the
//! end, can be put of any machine. Nothing here knows words, files or statuses.
#![tactic(auto)]

mod job;
mod lines;
mod play;
mod replaying;
mod schedule;
mod turns;

pub use due_events::sn_machine;
pub use job::{Replay, ReportKind, Script, Showing};
pub use play::{put_counted_summary, put_end, put_summary, turn, turn_since};
pub use replaying::{ReplayFault, replay, replay_on};
pub use schedule::Schedule;
pub use turns::put_turns;
