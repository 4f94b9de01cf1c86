//! The driver: it picks the next event of a machine, so that a whole run needs no script.
//!
//! The layer above hands it a machine, a worker and a number that was drawn, and gets the one event that is due by the rules;
//! `turn` applies it too. What is due is defined beside it (`due_events`); the driver's numbers are kept from event to event.
//! It walks the messages in flight and the nodes, never all blocks, and takes no memory: it looks once at what all nodes'
//! lists have in common, counts what may be due at a node, and then takes the one that the pick names.
#![tactic(auto)]

mod answers;
mod driver;
mod found;
mod moves;
mod numbers;
mod overview;
mod places;
mod turn;

pub use driver::Driver;
pub use sn_base::Rules;
pub use turn::Turn;
