//! The program's words, read.
//!
//! `read_words` says which command the words ask for, with its sizes, its flags and the names of its files. What the words
//! mean stands in specs/: the table of commands in `Command`, and the request of the words, `ask_of`, in `Request`. clap
//! finds the words' entries; the layer above sees nothing of it. The rules of the values stand in `option_values`.
#![tactic(auto)]

mod command;
mod entries;
mod reading;
mod request;

pub use reading::read_words;
pub use request::{
    Check, Drive, DriveReport, Monitor, Replay, ReplayReport, Request, Resume, Roll, Run, RunOrder,
    RunScope, Save, WordsFault,
};
