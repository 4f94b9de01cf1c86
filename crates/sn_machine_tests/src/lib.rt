//! Schedules on a machine's own calls, each with the report that a replay of it has.
//!
//! These tests stand above `sn_machine` and `sn_text` and not in them: a script's text is read, each event is foreseen and
//! applied, and its lines are written, so a schedule that fails here can be replayed as it stands.
#![tactic(auto)]

#[cfg(test)]
mod tests;
