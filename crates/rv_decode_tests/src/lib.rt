//! Words of instructions and of none.
//!
//! These tests stand beside `rv_decode` and not in it: a crate with tests is proved twice, and that one is below all others.
#![tactic(auto)]

#[cfg(test)]
mod tests;
