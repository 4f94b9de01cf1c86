//! Saves the recovery point of a machine as text, and makes a machine that goes on from such a text.
//!
//! `save` writes the point line by line and takes no memory; what it writes is `saved_text` of what the machine has at its cut,
//! and is read back as just that. `may_save` tells whether a point is small enough.
//! `resume` reads such a text for a program: its machine is in the state that a recovery would have left, and whatever is
//! applied to it later, the saved records followed by what is committed are one execution. What somebody else wrote is
//! refused, or it is a machine of which all of that holds.
#![tactic(auto)]

mod lines;
mod resuming;
mod savable;
mod saving;

pub use resuming::resume;
pub use savable::may_save;
pub use save_text::{SaveCause, SaveFault};
pub use saving::save;
