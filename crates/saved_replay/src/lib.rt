//! A replay whose recovery point is saved: a script's events are applied, and then the machine's point is written as a text.
//!
//! The layer above knows it as a list of pieces: what the events release goes to the console, and the save file is the whole
//! report. It is read back as it was saved, and a machine goes on from it in the state that a recovery would have left. All
//! memory is taken before the first event. Nothing here knows words, files or statuses.
#![tactic(auto)]

mod job;
mod saving;

pub use job::SavedReplay;
pub use saving::replay_saved;
