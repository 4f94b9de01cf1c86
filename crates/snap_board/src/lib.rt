//! A board on which snapshots are shown, and watchers that look at it without waiting and never see it go back.
//!
//! The layer above publishes a snapshot after another, and knows of a watcher its front: a list of snapshots whose points grow,
//! of which each look gives the last. It knows that the front which a look leaves begins with the one before, and with the list of
//! each receipt that was learned. How the two sides share snapshots, `left_right` knows alone; the rule that all steps keep is
//! `Keeps`, of the roll: every front is a beginning of the published list.
#![tactic(auto)]

mod board;
mod holder;
mod receipt;
mod roll;
mod rule;
mod shown;
mod sight;
mod snap;
mod watcher;

pub use board::Board;
pub use receipt::Receipt;
pub use snap::Snap;
pub use watcher::Watcher;
