//! A monitor: a machine and its driver, whose turns publish a snapshot of each validated cut, and a watcher that reads them in a
//! thread of its own without waiting.
//!
//! The layer above makes turns, and knows of them what the driver's turns are, and that the published list has just the
//! snapshots of the cuts that were validated; and it knows of the watcher what a board promises: its front never goes back, and
//! begins with the list of each receipt that it learned. Nothing here picks events or starts threads.
#![tactic(auto)]

mod cut;
mod monitored;

pub use monitored::{MonitorRefused, Monitored, Published};
pub use snap_board::{Receipt, Snap, Watcher};
