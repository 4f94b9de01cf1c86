//! The answers of a recovery's calls.
use sn_base::NodeId;

/// What became of a message that was to be delivered.
#[derive(Clone, Copy, PartialEq, Eq, Debug)]
pub enum ControlDelivery {
    /// No message in flight has this number.
    NoMessage,
    /// An order, and the node made its part: of so many blocks.
    Restored(u32),
    /// An order, and the node had its part.
    Again,
    /// A node is done, and it is noted.
    Noted,
}

/// Why a message wasn't repeated.
#[derive(Clone, Copy, PartialEq, Eq, Debug)]
pub enum RepeatFault {
    /// No message in flight has this number.
    NoMessage,
    /// 64 messages are in flight.
    Full,
}

/// 64 messages are in flight.
#[derive(Clone, Copy, PartialEq, Eq, Debug)]
pub struct Full;

/// Why a recovery isn't finished.
#[derive(Clone, Copy, PartialEq, Eq, Debug)]
pub enum FinishFault {
    /// The least node that isn't noted.
    NotDone(NodeId),
    /// Every node is noted, and no path of living switches joins these.
    CutOff(NodeId, NodeId),
}
