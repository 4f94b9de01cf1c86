//! The top call: everything that the program does, as one function over a store and two sinks.
//!
//! It reads the words, fetches and reads the files that they name, takes all memory, and puts what the command writes to the
//! console and the report. Its contract says what is written and with which status it ends, from the words and the files
//! alone. What the words ask is a plan: the files that are fetched, one after another, and the job that is due then; and
//! a job has an outcome, which says the pieces that it puts and the status in which it ends. The program above it makes the
//! real store and sinks, and ends with the status's number. Nothing is written before all words and files were found good. A drive, whose
//! lines come one by one, has a call of its own beside this one, in `safetynet_drive`: no call here reads standard input.
#![tactic(auto)]

mod call;
mod checking;
mod demo;
mod ended;
mod files;
mod job;
mod judging;

pub use call::safetynet;
pub use generated_runs;
