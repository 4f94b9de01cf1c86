//! What one block of memory sees of the fabric, and that the fabric is coherent.
//!
//! The fabric's definitions are lists of nodes, homes and messages; a block of the coherence theorem is a record of
//! functions. `block_seen` in specs/ reads the one as the other. Each event of the fabric is, for each block, a short list of
//! that block's own events, each of which the coherence theorem allows there; so along every run of the fabric all its
//! sentences hold of every block. In the fabric's own words: each block has one writer at most, and one holder at each
//! checkpoint below which its home has nothing open. The same holds with the records of all accesses beside the fabric: then
//! each copy is what the accesses left, each access is legal, and the holder at a checkpoint has what the accesses below it
//! leave. No code calls this crate; its functions have empty bodies, and their contracts are the theorems.
//!
//! Source: the projection argument of directory protocols (Sorin, Hill, Wood, "A Primer on Memory Consistency and Cache
//! Coherence": coherence is a matter of one block at a time), and SafetyNet (ISCA 2002).
#![tactic(auto)]

mod laws;
mod met;
mod records;

pub use laws::{
    each_event_keeps, each_event_keeps_frames, each_row_is_its_event, every_run_is_coherent,
    finished_below_the_point, nodes_are_in_time, nodes_stay, resumed_is_kept, start_is_kept,
    what_is_kept_is_coherent, what_is_served_can_be_used, what_is_told_is_of_the_fabric,
};
pub use met::deliveries_meet_their_rows;
pub use records::{
    each_access_keeps_records, each_event_keeps_records, records_tell, reports_are_true,
    resumed_is_recorded, start_is_recorded,
};
