//! Words of a command, the values of its options, and what is said of words that are none.
//!
//! These tests stand above what they call and not in it, since a crate with tests is proved twice, and together, since each crate of
//! tests loads what it stands on.
#![tactic(auto)]

#[cfg(test)]
mod tests;
