//! A machine that is driven: lines of a script are read one after another, and each is answered before the next is read.
//!
//! The layer above knows it by the lines that were read, as a list of pieces: of each event what a replay puts of it, its group of
//! lines or its line of states; of each line that asks for a part of the state or for what is due that as JSON, of each that is none
//! of these why it is refused, and at the end the summary of the events that are done, which a line may take back. It knows that at
//! every moment the committed trace is an execution of the program, whose output the console has as long as nothing is taken back,
//! and that then a replay of the events puts the same. Memory is taken before the first line, but for texts that take it as they
//! grow, of looks and of states, and for a machine that goes back, which is made anew: where it is lacking there, the drive ends, and
//! nothing of that line is put. Nothing here knows words, files or statuses.
#![tactic(auto)]

mod answering;
mod driving;
mod going_back;
mod job;
mod kept;
mod looking;
mod marks;
mod putting;
mod reading;
mod refusals;

pub use driving::{DriveEnd, DriveFault, drive};
pub use job::{Drive, DriveShowing, Look, Said};
