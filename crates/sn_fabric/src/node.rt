//! What a node has beside its home: its clock, its cache and its log.

use ckpt_clock::Clock;
use log_buffer::LogBuffer;
use mosi_cache::Cache;

/// The clock, the cache and the log of a node.
#[derive(Drop)]
pub struct NodeUnit {
    pub clock: Clock,
    pub cache: Cache,
    pub log: LogBuffer,
}
