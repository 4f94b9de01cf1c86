//! Sequential consistency: instructions retire in another order than they stand in the committed trace, and still the
//! trace is an execution of one flat memory.
//!
//! The layer above keeps the list of what retired, by intervals. It shows of each retirement that nothing above its
//! interval minds, and learns from here that the list stays an execution, what its cuts hold, and that its committed
//! part only grows. The checker of traces learns that an execution is a list whose projections on cores and on blocks
//! are all good.
//!
//! This crate has theorems alone: each function does nothing, and its contract is the theorem. It knows neither caches
//! nor messages nor clocks.
#![tactic(auto)]

mod committed;
mod machine;
mod projections;
mod retirement;
mod step;

pub use committed::{
    committed_part_grows, committed_part_is_execution, committed_part_stays, output_is_released,
    reads_are_taken, recovery_leaves_execution, retirements_by_interval,
};
pub use machine::{
    each_event_keeps, freed_checkpoints_count_for_nothing, others_may_go_on, point_is_last_state,
    same_at_each_place_keeps, saved_point_keeps,
};
pub use projections::{
    execution_is_good_projections, execution_is_good_skipping, first_refused_is_least_failing,
};
pub use retirement::{
    apart_steps_change_places, list_stays_good, reservation_stands_since_its_lr,
    retirement_steps_later_cuts,
};
pub use step::{
    block_has_its_store, block_has_its_word, only_lr_and_sc_change_reservation,
    reservation_plays_no_part, write_fits_its_block,
};
