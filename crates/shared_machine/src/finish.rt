//! Why a run has no turn any more.
use sn_base::NodeId;

/// Why a turn is refused.
#[derive(Clone, Copy, PartialEq, Eq, Debug)]
pub enum Finish {
    /// All cores have ended at the recovery point.
    Over,
    /// The last recovery found that no path of living switches joins these nodes.
    CutOff(NodeId, NodeId),
    /// The journal has as many events as the run does at most.
    Budget,
    /// A stop stands.
    Stopped,
}
