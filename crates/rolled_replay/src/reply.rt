//! The answers of controls.
use sn_base::{MsgId, NodeId, Undo};

/// What a control is answered.
#[derive(Clone, Copy, PartialEq, Eq, Debug)]
pub enum Reply {
    /// An order was sent, under this number.
    Ordered(MsgId),
    /// A copy was sent, under this number.
    Repeated(MsgId),
    /// 64 messages are in flight.
    Full,
    /// No message in flight has this number.
    NoMessage,
    /// The message is lost.
    Lost,
    /// A node made its part, of so many blocks.
    Restored(u32),
    /// A node that had its part got an order.
    Again,
    /// A node is noted.
    Noted,
    /// The least node that isn't noted.
    NotDone(NodeId),
    /// No path of living switches joins these nodes.
    CutOff(NodeId, NodeId),
    /// The machine is back at its recovery point.
    Finished(Undo),
    /// The recovery was finished before.
    Over,
}
