//! Schedules of the fabric, each with the report that the reference simulator puts of it: what is asked and sent about a
//! block, what is held, lost or refused, how the recovery point rises, and what a recovery leaves.
//!
//! They are played on a machine, which makes each call of `sn_fabric`, and stand beside that crate and not in it: a crate with
//! tests is proved twice. Besides, the fabric's point rises only where each node is known to be ready, as a machine knows it.
#![tactic(auto)]

#[cfg(test)]
mod tests;
