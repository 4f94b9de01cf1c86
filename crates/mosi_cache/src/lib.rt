//! The cache controller of one node: the cache's side of the MOSI directory protocol, as a table.
//!
//! Each message that comes to a cache has one row: what becomes of the line, of the open miss and of the open put, what
//! the node's log notes, and what is sent. The rows do exactly what the machine's definitions say, and the layer above
//! knows a cache as the cache of these definitions: the line of each block, the miss and the put. A row whose log entry
//! has no room is refused, and then nothing changes; what would happen can be asked beforehand.
//!
//! A cache never waits, never looks at the network, and takes memory only when it is made.
//!
//! Source: the directory protocol of SafetyNet (Sorin, Martin, Hill, Wood, ISCA 2002), which logs a block's old content
//! where it is written or its ownership moves for the first time in an interval.
#![tactic(auto)]

mod cache;
mod laws;
mod lines;
mod looks;
mod step;

pub use cache::Cache;
pub use laws::{
    changes_are_the_machines, eviction_is_the_machines, full_log_is_the_machines,
    least_open_is_the_machines, probe_is_the_machines, restore_is_the_machines,
    row_is_the_machines,
};
pub use looks::{Line, OpenMiss, OpenPut};
pub use sn_model::{LineState, Look, Need, Out};
pub use step::{AccessProbe, CacheStep};
