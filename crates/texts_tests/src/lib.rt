//! Values as texts, files that are read, and the lines that say why.
//!
//! These tests stand above what they call and not in it, since a crate with tests is proved twice, and together, since each crate of
//! tests loads what it stands on.
#![tactic(auto)]

#[cfg(test)]
mod tests;
