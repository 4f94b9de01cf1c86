//! Probes: measuring tools that the machine doesn't know. Whoever attaches one makes it, and whatever applies events tells it
//! each of them, with its number and its answer, and reads its numbers at the end.
//!
//! The layers above know a probe by three things (`Meter`): the tally that it has at first, the tally that it has now, and what
//! one event makes of a tally. So the tallies after a run are a function of its events and their answers. Nothing here knows a
//! machine, a sink or a line of text, and nothing takes memory.
#![tactic(auto)]

mod event_tally;
mod probe;
mod probe_set;

pub use event_tally::EventTally;
pub use probe::Probe;
pub use probe_set::ProbeSet;

#[cfg(test)]
mod tests;
