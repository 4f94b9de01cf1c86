//! Judges a trace: whether its records are an execution of a program on so many nodes, and if not, which is the first
//! without a step.
//!
//! The layer above gives an image and records, and learns the first bad place alone. No flat machine runs here. Each
//! core's records are replayed by themselves, with the words that they say they saw, which gives what the core does in
//! memory; then each block's accesses are looked at by themselves, in the order of the records: each word seen is what
//! the earlier writes left, and no other core's write lies between a done SC and its core's last LR. That this judges
//! the whole is the law of projections (sn_consistency, projection_places).
//!
//! The cores are replayed in threads of their own, and then the blocks in as many parts as there are processors,
//! at most 16.
#![tactic(auto)]

mod blocks;
mod cell;
mod cells;
mod core_replay;
mod cores;
mod kind;
mod memory_effect;
mod parts;
mod tag;
mod tagged_effects;
mod verdict;

pub use verdict::{CheckFault, check};
