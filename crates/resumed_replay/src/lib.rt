//! A replay on a machine that goes on from a saved recovery point.
//!
//! The layer above knows it as a list of pieces: those of a replay, whose events are counted from 1, though others were applied
//! before what was saved. At every moment the saved records, followed by what is committed later, are an execution of the
//! program, and the console has what that puts out after the saved bytes. All memory is taken before the first event. Nothing
//! here knows words, files or statuses.
#![tactic(auto)]

mod going_on;
mod job;

pub use going_on::replay_resumed;
pub use job::ResumedReplay;
