//! A replay whose machine then recovers node by node: a script's events are applied, and controls lead the recovery.
//!
//! The layer above knows it as a list of pieces: what the events release goes to the console, each control's line with its
//! answer goes to the report, and then the summary does, which counts the script's events. The probes are told the events
//! alone. All memory is taken before the first event. Nothing here knows words, files or statuses.
#![tactic(auto)]

mod job;
mod leading;
mod lines;
mod reply;
mod rolling;
mod stage;

pub use job::{Controls, Roll};
pub use leading::{Ready, RollFault, put_controls, put_events, ready_for};
pub use reply::Reply;
pub use rolling::roll;
pub use rolling_recovery;
pub use stage::Stage;
