//! Calls of the whole program over files and sinks in memory, and what they leave.
//!
//! The crates of tests above make their calls by it: so what a call of `safetynet` owes is proved once, and not in each of them. So is what
//! the replay owes that makes a trace for them.
#![tactic(auto)]

mod calling;
mod given;
mod traces;

pub use calling::{Left, Probes, call, call_with};
pub use given::{
    ADDED, COUNTER, COUNTS, ECHOES, Faults, Given, LATE_BYTE, LOOPS, NO_FAULT, PUTS_A, SAVED,
    UNSEEN, VALIDATED, WORDS,
};
pub use traces::generated_trace;
