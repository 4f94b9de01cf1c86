//! A replay that shows states: events applied to a machine one after another, and a line of JSON an event, with what the event
//! was, what it came to and the parts of the state that it may have touched.
//!
//! The layer above knows it as a list of pieces, a function of the program, the machine's sizes, the events, the places that are
//! shown, and the probes that are told each event; and it knows that at every moment the committed trace is an execution of the
//! program, whose output the console has. A line is put in one piece. It takes memory as it grows, so memory may be lacking after
//! any event; then the pieces of the events before are put, and no others. The start, an event and the end can be put of any machine.
//! Nothing here knows words, files or statuses.
#![tactic(auto)]

mod job;
mod pieces;
mod play;
mod replaying;

pub use job::StatesReplay;
pub use play::{StatesFault, put_last_line, put_opening, turn_with_state};
pub use replaying::replay_states;
pub use state_lines::machine_states;
