//! The rules of a run.
use crate::switch::SwitchId;

/// By what the events of a run are picked.
#[derive(Clone, Copy, PartialEq, Eq, Debug)]
pub struct Rules {
    /// How many instructions a node retires before its next clock edge is due, at least 1.
    pub interval: u32,
    /// After how many events in which the recovery point neither rose nor was gone back to a recovery is due, at least 1.
    pub wait: u32,
    /// Every so many moves of messages, a message is lost in place of its move; 0 where none is.
    pub lose_every: u32,
    /// A switch that dies, and after how many events.
    pub kill: Option<(SwitchId, u32)>,
}
