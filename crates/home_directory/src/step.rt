//! What a home answers to a message.
use sn_base::{NodeId, NodeSet};
use sn_model::Out;

/// What `receive` has done.
#[derive(Clone, Copy, PartialEq, Eq, Debug)]
pub enum HomeStep {
    /// The row is done. It sends the first message, if any, and then an `Inv` that names the requester to each node of the
    /// set, in order of nodes.
    Took(Option<Out>, NodeSet, NodeId),
    /// A transaction is open on the block, so the request waits. Nothing changed.
    HomeBusy,
    /// The log has no room for what the row would note. Nothing changed.
    LogFull,
}
