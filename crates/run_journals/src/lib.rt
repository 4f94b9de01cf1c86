//! The journal of a run by several workers, as definitions: what each worker draws, and when a journal's events are those that
//! were due.
//!
//! A worker's turn draws the next number of its own generator, and the event that is due then is applied. Whatever the order of
//! the turns is, the journal tells it all: its events, folded from the start, give the machine, the driver's numbers and the
//! answers; and each event was due. Whoever runs workers, or reads what they left, cites these words. `laws` has what adding a
//! turn does.
#![tactic(auto)]

mod entry;
mod laws;

pub use due_events::sn_machine;
pub use entry::JournalEntry;
pub use laws::{a_due_turn_goes_on, picks_are_drawn, released_only_grows};
