//! The lines of a replay's states, one JSON object each: the first, one an event, and the last.
//!
//! Each call appends a line that `state_json` defines to bytes that grow. The line of an event is written while the event is
//! applied: what was found before it, through the machine's looks, and then the parts that it may have touched, as they are after
//! it. Where a call lacks memory, some of the line may stand there, and no more is said. Nothing here knows a sink.
#![tactic(auto)]

mod applying;
mod details;
mod lines;
mod recovery;
mod step;
mod summary;
mod told;
mod touched;
mod unready;

pub use applying::apply_with_line;
pub use lines::add_first_line;
pub use machine_states;
pub use summary::add_last_line;
