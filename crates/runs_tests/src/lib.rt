//! Runs by threads and in orders, each with all that it puts, and with sinks that fail.
//!
//! These tests stand above what they call and not in it, since a crate with tests is proved twice, and together, since each crate of
//! tests loads what it stands on.
#![tactic(auto)]

#[cfg(test)]
mod tests;
