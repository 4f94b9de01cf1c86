//! At every moment of every run the recovery point is a consistent cut, and a recovery restores just that cut.
//!
//! The machine's definitions are two levels: the fabric, which carries and keeps blocks, and the rest, which is what the
//! cores do and what becomes of it. The fabric is coherent (`fabric_coherence`), and instructions that retired in any order
//! are an execution once they are sorted by interval (`sn_consistency`). This crate joins them: beside each state of the
//! machine stands the sorted list of what retired, each block's content at a cut is what the part of the list below the cut
//! leaves, and so the state at the recovery point is that of one flat memory after the committed trace.
//!
//! It has theorems alone: each function does nothing, and its contract is the theorem. A machine's code has one duty, to do
//! the definitions' step; whatever it looks like inside, the theorems hold of it.
//!
//! Source: SafetyNet (Sorin, Martin, Hill, Wood, ISCA 2002), sections 2 and 3: a consistent checkpoint of the whole system's
//! architectural state, validated once all transactions before it have completed.
#![tactic(auto)]

mod bounds;
mod examples;
mod kept;
mod runs;
mod saved;

pub use bounds::every_run_is_one_of_the_fabric;
pub use examples::some_runs_are_runs;
pub use kept::{each_event_joins, joined_is_consistent, origin_is_joined, records_are_of_the_list};
pub use runs::{
    every_event_is_consistent, every_moment_is_consistent, every_run_adds_to_its_origin,
};
pub use saved::{recovery_resumes, resumed_is_restored, saved_is_in_form};
