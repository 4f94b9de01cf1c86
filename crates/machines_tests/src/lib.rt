//! What is made of a machine: recoveries node by node, saved ones that go on, states, statistics and turns.
//!
//! These tests stand above what they call and not in it, since a crate with tests is proved twice, and together, since each crate of
//! tests loads what it stands on.
#![tactic(auto)]

#[cfg(test)]
mod tests;
