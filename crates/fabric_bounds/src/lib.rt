//! The bounds of the fabric: whatever its code must rely on to do each event without a refusal of its own.
//!
//! The machine's definitions refuse an event where a log, the network or a set of a cache lacks the room; what is done
//! besides, a line that arrives or a cut that is put back, must find its room by itself. That it does is an invariant: logs,
//! network and caches are never fuller than they may be, nor is any cut from the recovery point on; and numbers that count up
//! stay far below 64 bits. No code calls this crate; its functions have empty bodies, and their contracts are the
//! theorems.
//!
//! Source: SafetyNet (ISCA 2002): a cache's checkpoint is what its log and its lines say, and what is held at a checkpoint had
//! a frame there.
#![tactic(auto)]

mod laws;

pub use laws::{
    answers_find_their_frames, cuts_fit_the_sets, each_event_keeps_bounds, each_event_sends_few,
    every_run_is_bounded, numbers_do_not_run_out, resumed_is_bounded, start_is_bounded,
    what_is_bounded,
};
