//! The values of a machine's state written as JSON: cores, lines, log entries, messages, events and answers.
//!
//! Each call appends the text that `state_json` defines to bytes that grow. Where it lacks memory, some of the text may stand there,
//! and no more is said. The layer above writes a machine's parts by these calls. Nothing here knows a machine.
#![tactic(auto)]

mod events;
mod json;
mod messages;
mod values;

pub use events::{add_answer, add_event};
pub use json::{
    add, add_byte, add_bytes, add_comma, add_flag, add_large, add_member, add_null, add_number,
    add_opening, add_word,
};
pub use messages::{add_all_sent, add_flight, add_switch};
pub use values::{
    add_content, add_core, add_entry, add_held, add_line, add_log, add_miss, add_put, add_read,
    add_record, add_reported, add_sharers, add_transaction,
};
