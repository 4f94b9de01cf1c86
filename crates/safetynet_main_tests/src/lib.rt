//! Calls of the whole program over a store and sinks in memory, with what they leave: calls that are done, calls that fail at each of their
//! calls of the outside in turn, calls that are handed probes, calls of `drive`, and the line of a call that says why.
//!
//! These tests stand beside `safetynet_main` and not in it: a crate with tests is proved twice, and that one stands on all others.
#![tactic(auto)]

#[cfg(test)]
mod tests;
