//! Looks at what stands in the fabric, for a viewer, a debugger or a teacher's tour. They change nothing and take no memory.
ghost use Rattle.std.specs.Prelude.{◌≡◌, ◌<◌, ◌%◌, true, length, IsNone, IfSome};
ghost use Rattle.home_directory.specs.Home.{entry_of, owner_of};
ghost use Rattle.sn_model.specs.Caches.{no_line, line_of, is_present};
ghost use Rattle.sn_model.specs.Fabric.{node_at, home_of};
ghost use Rattle.sn_model.specs.Homes.{Itself};

use crate::{Fabric, Owner};
use home_directory::{Home, Transaction};
use log_buffer::LogBuffer;
use mosi_cache::{Line, OpenMiss, OpenPut};
use sn_base::{Block, BlockNo, Interval, NodeId, NodeSet};

impl Fabric {
    /// The recovery point that a node knows.
    pub fn known(&self, node: NodeId) -> Interval
        requires { node < length self.now.fabric.nodes }
        ensures { result ≡ (node_at self.now.fabric node).known }
    {
        self.units[usize::from(node.number())].clock.known()
    }

    /// The line of a block in a node's cache. None where it has none.
    pub fn line(&self, node: NodeId, block: BlockNo) -> Option<Line>
        requires { node < length self.now.fabric.nodes }
        ensures none { IsNone result → line_of (node_at self.now.fabric node).cache block ≡ no_line }
        ensures some { IfSome result
            (λ line. (line ≡ line_of (node_at self.now.fabric node).cache block) × (is_present line.state ≡ true)) }
    {
        self.units[usize::from(node.number())].cache.line(block)
    }

    /// The open miss of a node, if there is one.
    pub fn miss(&self, node: NodeId) -> Option<OpenMiss>
        requires { node < length self.now.fabric.nodes }
        ensures { result ≡ (node_at self.now.fabric node).cache.miss }
    {
        self.units[usize::from(node.number())].cache.miss()
    }

    /// The open put of a node, if there is one.
    pub fn put(&self, node: NodeId) -> Option<OpenPut>
        requires { node < length self.now.fabric.nodes }
        ensures { result ≡ (node_at self.now.fabric node).cache.put }
    {
        self.units[usize::from(node.number())].cache.put()
    }

    /// The log of a node, of both its sides.
    pub fn log(&self, node: NodeId) -> &LogBuffer
        requires { node < length self.now.fabric.nodes }
        ensures { result.now.entries ≡ (node_at self.now.fabric node).log }
    {
        &self.units[usize::from(node.number())].log
    }

    /// The home of a block.
    fn home(&self, block: BlockNo) -> &Home
        ensures here { block % result.now.nodes ≡ result.now.node }
        ensures entry { home_of self.now.fabric block ≡ entry_of result.now block }
    {
        // For the prover alone: the block is one of memory's.
        let _number = block.number();
        let home = block.home(self.config.nodes);
        &self.homes[usize::from(home.number())]
    }

    /// Whom the home of a block names as its owner now.
    pub fn owner(&self, block: BlockNo) -> Owner
        ensures { result ≡ owner_of (home_of self.now.fabric block).holder }
    {
        self.home(block).owner(block)
    }

    /// The content that the home of a block has, which it owns itself.
    pub fn home_content(&self, block: BlockNo) -> &Block
        requires { owner_of (home_of self.now.fabric block).holder ≡ Owner.Home }
        ensures { (home_of self.now.fabric block).holder ≡ Itself result.now }
    {
        self.home(block).content(block)
    }

    /// Which nodes the home of a block has as its sharers.
    pub fn sharers(&self, block: BlockNo) -> NodeSet
        ensures { result ≡ (home_of self.now.fabric block).sharers }
    {
        self.home(block).sharers(block)
    }

    /// The transaction that the home of a block has open on it, if there is one.
    pub fn transaction(&self, block: BlockNo) -> Option<Transaction>
        ensures { result ≡ (home_of self.now.fabric block).transaction }
    {
        self.home(block).transaction(block)
    }
}
