//! Recovery node by node: orders lead it, which may be lost, repeated and late, in any order of nodes, while the recovery
//! holds the machine and nothing else can move it.
//!
//! A node that an order reaches makes its part of the machine's recovery point: its core as that keeps it, and the blocks
//! that its cache, or else its home, owned there. It answers each order with a message that it is done, and only where such
//! a message arrives is it noted. Once every node is noted the machine goes back to its recovery point, and each node then has
//! just what its part has. The layer above knows a recovery by the machine that was handed in, the messages in flight, the
//! next number, who has a part and who is noted. Nothing here knows words, files or sinks, and no call takes memory but
//! `Room::new` and `read_control`.
#![tactic(auto)]

mod answers;
mod controls;
mod laws;
mod messages;
mod parts;
mod rolling;

pub use answers::{ControlDelivery, FinishFault, Full, RepeatFault};
pub use controls::{Control, read_control};
pub use laws::{each_recovery_is_the_cut, orders_may_be_lost_repeated_and_late};
pub use messages::{ControlMessage, Flight};
pub use rolling::{Rolling, Room};
