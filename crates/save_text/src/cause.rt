//! Why a save file is refused.
use sn_base::NodeId;

/// Why a save file is refused: the first cause, by its lines, which are counted from 1, and then by what they say.
#[derive(Clone, Copy, PartialEq, Eq, Debug)]
pub enum SaveCause {
    /// The file is longer than 64 MiB. Who fetches the file says so; no reader here does.
    TooLong,
    /// The line has another form or stands in another order. Where `end` lacks, it is the line where that would stand.
    BadLine(u64),
    /// The line names what isn't there, is one too many, or isn't in the order of its kind.
    OutOfRange(u64),
    /// The first pair of nodes that no path of living switches joins.
    CutOff(NodeId, NodeId),
    /// The line of the first owner that gives a node's set more blocks than it has ways.
    SetFull(u64),
    /// The place, counted from 1, of the first record that is no step of the program after those before it.
    NotLegal(u64),
    /// The least node whose records have read what it wasn't given.
    Unread(NodeId),
}

/// Why there is nothing to give: the text is refused, or memory is lacking.
#[derive(Clone, Copy, PartialEq, Eq, Debug)]
pub enum SaveFault {
    Refused(SaveCause),
    Memory,
}
