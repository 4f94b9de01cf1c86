//! Files that are read and texts that are written: programs, scripts, traces and the lines of a report.
//!
//! These tests stand beside `elf_load` and `sn_text` and not in them: a crate with tests is proved twice, and their readers are dear.
#![tactic(auto)]

#[cfg(test)]
mod tests;
