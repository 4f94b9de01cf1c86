//! The answers of the cache to what it is asked.
use sn_base::BlockNo;
use sn_model::Out;

/// What a cache says of an access: the instruction may retire, it waits for the open put of its block, a miss is needed, a
/// line of the set has to be evicted first, or the log has no room for the old content.
#[derive(Clone, Copy, PartialEq, Eq, Debug)]
pub enum AccessProbe {
    Ready,
    Waits,
    Miss,
    NeedsEvict,
    LogFull,
}

/// What a cache did with a message: it took it, sends this, and lost its copy of this block; or the log is full, and
/// nothing has changed.
#[derive(Clone, Copy, PartialEq, Eq, Debug)]
pub enum CacheStep {
    Took(Option<Out>, Option<BlockNo>),
    LogFull,
}
