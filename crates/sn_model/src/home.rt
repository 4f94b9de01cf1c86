//! Words of the home's table.
use sn_base::NodeId;

/// Who owns a block.
#[derive(Clone, Copy, PartialEq, Eq, Debug)]
pub enum Owner {
    Home,
    Cache(NodeId),
}

/// The kind of a transaction that the home has open on a block.
#[derive(Clone, Copy, PartialEq, Eq, Debug)]
pub enum Kind {
    /// A copy goes to a reader, and the owner stays.
    Read,
    /// The block goes from the home to a cache.
    Take,
    /// The block goes from one cache to another.
    Move,
    /// The owner gets the right to write.
    Upgrade,
    /// The owner gives the block back to the home.
    Put,
}
