//! A machine's state as JSON, part by part.
//!
//! Each call appends the text of one part of a machine, as `state_json` defines it, through what the machine shows of itself: a
//! node, a block's home, the network, the controller, or the whole state. No copy of the state is kept. Where a call lacks memory,
//! some of the text may stand there, and no more is said. Which parts are written, and in what frame, the layer above decides.
#![tactic(auto)]

mod controller;
mod home;
mod net;
mod node;
mod state;

pub use controller::add_controller;
pub use home::{add_home, add_other_home, is_as_at_start};
pub use net::{add_flights, add_net};
pub use node::{add_node, add_open_miss, add_open_put};
pub use sn_machine;
pub use state::{add_nodes, add_state, has_its_nodes};
