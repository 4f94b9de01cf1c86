//! The machine: up to 16 nodes, each with a core, its register checkpoints and its part of the fabric, under one service
//! controller.
//!
//! It is a state with one step: an event goes in, an answer comes out, and what was sent can be asked for. The layer above
//! knows it by the machine's definitions alone: `apply` is their step, and what is proved of their runs holds of it. It knows
//! no queue, buffer or room. A machine begins at a program's start, or goes on from a recovery point that was kept (`at_cut`), as a
//! recovery would leave it.
//!
//! What an instruction puts out is held until its checkpoint is validated, and a recovery takes back everything above the
//! last validated checkpoint. No event takes memory: `reserve` takes the room for so many events beforehand.
#![tactic(auto)]

mod clocks;
mod contents;
mod evictions;
mod hardware;
mod hearing;
mod input;
mod inputs;
mod looks;
mod machine;
mod messages;
mod points;
mod processor;
mod restoring;
mod resuming;
mod start;
mod steps;
mod view;

pub use interval_list::Waiting;
pub use machine::Machine;
pub use sn_fabric::{Line, OpenMiss, OpenPut, Owner, Transaction};
pub use sn_model::Sent;
pub use sn_saved::Marks;
pub use view::View;
