//! The entry of one block in a home's directory.
ghost use Rattle.std.specs.Prelude.{◌≡◌};
ghost use Rattle.sn_model.specs.Homes.{is_owner};
ghost use Rattle.home_directory.specs.Home.{cache_of, begun_of};

use sn_base::{Block, Interval, NodeId, NodeSet};
use sn_model::{Kind, Owner};
use std::marker::Model;

/// An open transaction: its kind, the node that asked for it, and the interval in which the home began it.
#[derive(Clone, Copy, PartialEq, Eq, Debug)]
pub struct Transaction {
    pub kind: Kind,
    pub requester: NodeId,
    pub begun: Interval,
}

impl Model for Transaction {
    ghost use Rattle.sn_model.specs.Homes.{Transaction as TransactionData};

    ghost Value = { TransactionData };

    ghost view = { λ t. record { kind = t.kind; requester = t.requester; begun = t.begun } };

    ghost inverse = { λ t. record { kind = t.kind; requester = t.requester; begun = t.begun } };
}

/// What the home keeps of a block. `memory` is the block's content while the home owns it, and counts for nothing while a
/// cache does.
#[derive(Drop)]
pub struct DirectoryEntry {
    pub owner: Owner,
    pub memory: Block,
    pub sharers: NodeSet,
    pub transaction: Option<Transaction>,
}

impl Model for DirectoryEntry {
    ghost use Rattle.sn_model.specs.Homes.{HomeEntry};
    ghost use Rattle.home_directory.specs.Home.{holder_of};

    ghost Value = { HomeEntry };

    ghost view = { λ e. record { holder = holder_of e.owner e.memory; sharers = e.sharers; transaction = e.transaction } };
}

impl DirectoryEntry {
    /// The node whose cache owns the block. None where the home owns it.
    pub fn owner_cache(&self) -> Option<NodeId>
        ensures { result ≡ cache_of self.now.holder }
    {
        match &self.owner {
            Owner::Cache(node) => Some(*node),
            Owner::Home => None,
        }
    }

    /// Whether this node's cache owns the block.
    pub fn is_owner(&self, node: NodeId) -> bool
        ensures { result ≡ is_owner self.now.holder node }
    {
        match &self.owner {
            Owner::Cache(owner) => *owner == node,
            Owner::Home => false,
        }
    }

    /// The interval in which the open transaction, if any, was begun.
    pub fn begun(&self) -> Option<Interval>
        ensures { result ≡ begun_of self.now.transaction }
    {
        self.transaction.map(|open| open.begun)
    }
}
