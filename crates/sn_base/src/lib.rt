//! The words that every other layer shares: nodes, switches, blocks and their bytes, programs as images,
//! events and their answers, the old contents that a log keeps, a machine's sizes and a run's rules.
//!
//! The layers above know these values by their numbers and lists: a node is a number below 16, a block's
//! content is a list of 64 bytes, an image says of each address its byte, whether it may be executed and
//! whether it may be written. Nothing here knows of a cache, a message or a machine.
#![tactic(auto)]

mod block;
mod config;
mod content;
mod copying;
mod event;
mod image;
mod limits;
mod log;
mod memory;
mod node;
mod report;
mod rules;
mod switch;

pub use block::{Block, BlockNo, Width, Write};
pub use config::Config;
pub use copying::copy_of;
pub use event::{Answer, Event, Undo};
pub use image::{Image, Segment};
pub use limits::{BLOCK_SIZE, BLOCKS, CHECKPOINTS, EVENTS, MESSAGES, RAM_END, RAM_SIZE, RAM_START};
pub use log::{Entries, LogEntry, Old, is_home_side};
pub use memory::Memory;
pub use node::{NodeId, NodeSet};
pub use report::RunReport;
pub use rules::Rules;
pub use switch::SwitchId;

/// The number of an interval of logical time: checkpoint k is the start of interval k.
pub type Interval = u32;

/// The number of a message, from 1 in the order in which they are sent.
pub type MsgId = u64;
