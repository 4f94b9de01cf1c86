//! Runs that are made to size: a program and exactly so many events, for examples and for measuring.
//!
//! The program counts for ever (`counting_program`), and the events are those that the driver finds due on a fresh machine
//! of four nodes, with losses now and then, for the numbers that one generator gives. None of them is kept: each is found on the
//! machine on which those before it were applied. That there are exactly so many is proved: no core of the program ends, and
//! without a dead switch no two nodes are cut off, so an event is always due.
#![tactic(auto)]

mod replaying;
mod schedule;
mod starting;

pub use replaying::replay_generated;
pub use schedule::Generated;
