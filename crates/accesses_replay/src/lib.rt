//! A replay that shows what the committed trace does in memory: events applied to a machine one after another, and at the end the
//! rows of the committed trace and the summary.
//!
//! The layer above knows it as a list of pieces, a function of the program, the machine's sizes, the events and the probes that are
//! told each event; and it knows that at every moment the committed trace is an execution of the program, whose output the console
//! has. All memory is taken before the first event. Nothing here knows words, files or statuses.
#![tactic(auto)]

mod events;
mod replaying;

pub use replaying::replay_accesses;
