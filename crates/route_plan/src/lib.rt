//! Routes through the switches of the two rings, round those that are dead.
//!
//! Each node has two switches: A in the ring of its row and B in the ring of its column, with a link between them. A
//! message enters at a switch of its sender, goes on from switch to linked switch, and has arrived at a switch of its
//! receiver. The layer above knows a route as a shortest path of living switches, and it knows the first pair of nodes
//! that no such path joins. It never sees the tables, which are filled breadth first and anew for each set of
//! dead switches. Nothing here knows of messages.
#![tactic(auto)]

mod dead;
mod distances;
mod grid;
mod routes;

pub use dead::Dead;
pub use routes::{PlanFault, Routes, cut_off, plan};
