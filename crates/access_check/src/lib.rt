//! Judges accesses to memory by themselves, without a program: whether each is legal after those before it, and if not,
//! which is the first that isn't, what was expected there, and which access made it so.
//!
//! The layer above gives the words that memory begins with and the accesses in their order. What is legal is what the law
//! of projections asks of each block and of each core's reservation (sn_consistency), without all that a program decides;
//! so the accesses of every execution of every program are legal (`laws.rt`). Nothing here knows of texts or programs.
#![tactic(auto)]

mod access;
mod blocks;
mod cell;
mod judging;
mod laws;
mod refusal;
mod verdict;

pub use access::{Access, Operation, StartWord, is_fitting};
pub use judging::judge;
pub use laws::{accesses_of_executions_are_legal, legal_is_allowed_by_each_block_and_core};
pub use verdict::{Cause, Refusal, Verdict};
