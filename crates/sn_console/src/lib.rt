//! The console's ring: bytes that are released under a lock and written by a thread of its own.
//!
//! The outbox is offered the released bytes from the first on and passes on, through a ring, the next of those that it has not
//! passed yet; the inbox takes out what came and writes it. The layer above knows, once both ends are in one hand: what was
//! written is the first of what was passed on, which is the first of what was offered; and after `settle` all of it is written.
//! Nothing here waits, and nothing here knows what the bytes mean.
#![tactic(auto)]

mod draining;
mod ends;
mod passing;
mod settling;
#[cfg(test)]
mod tests;

pub use ends::{Inbox, Outbox};
pub use passing::outbox;
pub use settling::settle;
pub use sn_base::Memory;
pub use sn_io::Failed;
