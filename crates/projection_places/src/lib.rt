//! Places of records that projections refuse, and the place of the first record without a flat step.
//!
//! A checker that looks at each core and each block by itself finds, of each, how many records it passes. The layer
//! above learns from here that the least of these numbers is the length of the longest beginning of the list that is
//! an execution. The blocks need to look only at the records that every core passes.
//!
//! This crate has theorems alone: each function does nothing, and its contract is the theorem.
#![tactic(auto)]

mod places;

pub use places::least_place_is_first_refused;
