//! Words of the network.
use sn_base::{BlockNo, Interval, NodeId};
use sn_msg::Message;

/// A message that an event sent, and whether it was lost at once, since its entry switch is dead.
#[derive(Clone, Copy, PartialEq, Eq, Debug)]
pub struct Sent {
    pub message: Message,
    pub lost: bool,
}

/// What the layer above has to hear of an event of the fabric: a node lost its copy of a block, so that its core keeps no
/// reservation on it; the service controller got a node's report; a node heard of a recovery point.
#[derive(Clone, Copy, PartialEq, Eq, Debug)]
pub enum News {
    LostCopy(NodeId, BlockNo),
    Ready(NodeId, Interval),
    Advance(NodeId, Interval),
}
