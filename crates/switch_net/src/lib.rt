//! The network: messages in flight between the nodes' switches.
//!
//! The layer above knows a list of messages, each with the switch that it stands in, in order of their numbers; the
//! switches that are dead; and those that were dead when the routes were made, which is at the start and at each
//! recovery. A message moves by one switch at a time and only when it is told to. It is lost where it would go into a
//! dead switch, where its switch dies, or where it is told to be lost. There is room for 1,024 messages from the start,
//! and no call but `new` and `at` fails for want of memory. The network never looks into a message's body.
#![tactic(auto)]

mod answers;
mod flight;
mod messages;
mod net;

pub use answers::{HopAnswer, TakeFault};
pub use flight::Flight;
pub use net::Net;
