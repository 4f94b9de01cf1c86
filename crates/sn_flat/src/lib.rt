//! The flat machine: one memory, one core per node, and one instruction at a time.
//!
//! It is the plain meaning of a program on several cores: a trace is an execution exactly where each of its records in turn
//! is a step here. (`trace_check` judges a trace without it, core by core and block by block.) It knows no cache, message,
//! interval or log, and no step takes memory.
#![tactic(auto)]

mod flat;
mod stories;

pub use flat::{Flat, NotLegal};
