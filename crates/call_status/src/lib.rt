//! How a call ends: its status, with the number and the words that name it.
//!
//! The layers above know a status by its number, its words and its place. Who says why a call ended needs no more of the call
//! than this. Nothing here knows a file or a sink.
#![tactic(auto)]

mod status;

pub use status::{ProgramCause, Status};
