//! The call of `drive`: a machine that is held by another program, line by line.
//!
//! It stands beside the top call of the other commands, which read all their input before they begin and have no part in standard
//! input. The program above makes the real store, source and sinks, and asks this call where the first word is `drive`. Its contract
//! says what is read, what is written and with which status it ends, from the words, the program's file and the lines alone.
//! Nothing is read or written before the words and the program were found good and memory is taken; what takes memory later are looks at
//! the state, ways back and lines of states, and one that finds none ends the call.
#![tactic(auto)]

mod call;

pub use call::{is_drive, safetynet_drive};
