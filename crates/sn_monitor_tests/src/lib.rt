//! Watchers of monitored runs: what their looks and their receipts give.
//!
//! These tests stand beside `sn_monitor` and not in it: a crate with tests is proved twice.
#![tactic(auto)]

#[cfg(test)]
mod tests;
