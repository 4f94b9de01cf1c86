//! All texts of the product: scripts and traces that are read and written, and the lines of a report.
//!
//! A `Line` is a buffer with the room for the text of any one event; each of its calls appends one line, or a part of one,
//! and takes no memory. `read_script` gives the events of a script and `read_trace` the records of a trace, or the first cause
//! for which it isn't one. What a text means stands in specs/: `event_of`, `script_of`, `record_of` and `trace_of` for what is
//! read, `event_line` and its like for what is written. What is written as a script or a trace is read back (`laws.rt`).
#![tactic(auto)]

mod cause;
mod event_text;
mod items;
mod laws;
mod line;
mod numbers;
mod operands;
mod script;
mod state_text;
mod trace;
mod trace_text;

pub use cause::{Fault, ScriptCause, ScriptFault};
pub use event_text::plain_answer;
pub use items::{Form, cause_at, is_skipped, read_items};
pub use laws::{scripts_are_read_back, traces_are_read_back};
pub use line::{LINE_ROOM, Line};
pub use numbers::number_in;
pub use operands::{byte_in, message_in, node_in, parted, switch_in};
pub use script::{event_in, read_script, rest_after};
pub use state_text::{body_name, trap_name};
pub use trace::{read_trace, record_in, word_in};
