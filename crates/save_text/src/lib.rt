//! Save files: what is written of a recovery point, what is read of such a text, and each cause for which it is refused.
//!
//! A save file is a recovery point as text, one thing a line, in an order of its own. The layer above sees the value that it
//! says (`Saved`), with all that a machine needs to go on, or the first cause for which it is refused: a line of another
//! form, a number out of range, a node that is cut off, more blocks than a set has ways, a record that is no step of the
//! program, a byte that was read and never given. What the texts mean stands in specs/; what is written is read back
//! (`laws.rt`). Nothing here knows a machine.
#![tactic(auto)]

mod cause;
mod head;
mod judging;
mod laws;
mod lines;
mod part;
mod reading;
mod reads;
mod replay;
mod saved;
mod sets;
mod words;
mod writing;

pub use cause::{SaveCause, SaveFault};
pub use judging::{Accepted, read_save};
pub use laws::{saves_are_read_back, what_is_said_is_in_form};
pub use lines::read_lines;
pub use saved::Saved;
pub use writing::{
    write_config, write_dead, write_end, write_given, write_head, write_marks, write_owner,
    write_record,
};
