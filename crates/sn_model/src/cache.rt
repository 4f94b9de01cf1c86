//! Words of the cache's table.
use sn_base::NodeId;
use sn_msg::Body;

/// What an instruction needs of a block: to read it, or to write it (MOSI protocols; SafetyNet, section 3).
#[derive(Clone, Copy, PartialEq, Eq, Debug)]
pub enum Need {
    Read,
    Write,
}

/// The state of a cache's line. A line in `Owned`, `Modified` or `Exclusive` owns its block. `Exclusive` is the only copy,
/// and may be written without a message.
#[derive(Clone, Copy, PartialEq, Eq, Debug)]
pub enum LineState {
    Absent,
    Shared,
    Owned,
    Modified,
    Exclusive,
}

/// A message that a controller sends: its receiver and its body. The sender, the block and the tag are the controller's
/// own node, the block that it serves, and its interval.
#[derive(Clone, Copy, PartialEq, Eq, Debug)]
pub struct Out {
    pub to: NodeId,
    pub body: Body,
}
