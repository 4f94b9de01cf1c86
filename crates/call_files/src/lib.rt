//! The files of a call: fetched from the store under their limits, and read.
//!
//! The layer above knows of each what was found under its name, and that the answer is what the definitions read in that: a
//! program, a script, the controls of a recovery, the machine that goes on from a save file, a trace, a list of accesses or the words of
//! a text; or the status that says why there is none. Want of memory is a status too. Which files a command fetches, and in which order, it doesn't know.
#![tactic(auto)]

mod contents;
mod files;
mod reading;

pub use contents::{Text, Trace};
pub use files::{
    fetch_accesses, fetch_assembly, fetch_control, fetch_program, fetch_save, fetch_script,
    fetch_trace,
};
pub use reading::list_program;
pub use rolled_replay;
