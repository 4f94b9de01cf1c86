//! One turn of a journal.
use sn_base::Event;

/// An event, and the worker in whose turn it was applied.
#[derive(Clone, Copy, PartialEq, Eq, Debug)]
pub struct JournalEntry {
    pub worker: u32,
    pub event: Event,
}
