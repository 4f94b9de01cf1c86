//! What a turn of the driver comes to.
use sn_base::{Answer, Event, NodeId};

/// What a turn came to.
#[derive(Clone, Copy, PartialEq, Eq, Debug)]
pub enum Turn {
    /// The due event was applied, and had this answer.
    Did(Event, Answer),
    /// All cores have ended at the recovery point, and nothing is due any more.
    Over,
    /// The last recovery found that no path of living switches joins these nodes, and nothing is due any more.
    CutOff(NodeId, NodeId),
}
