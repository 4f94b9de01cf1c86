//! What a block has at a cut.
ghost use Rattle.std.specs.Prelude.{◌≡◌, ◌<◌, ◌≤◌, true, false, length, is_some, option_copied, Some};
ghost use Rattle.home_directory.specs.Home.{owner_of};
ghost use Rattle.sn_model.specs.Cuts.{holds_at, names_at, transaction_before};
ghost use Rattle.sn_model.specs.Fabric.{home_of};
ghost use Rattle.sn_model.specs.Homes.{Itself};
ghost use Rattle.sn_model.specs.RecoveryPoint.{HasOneHolderWith};
ghost use Rattle.sn_fabric.specs.Units.{noted_content};

use crate::{Fabric, Owner};
use sn_base::{Block, BlockNo, Interval, NodeId, Old};

/// The content that a home noted, where the old content is one.
fn noted_content(noted: Option<&Old>) -> Option<&Block>
    ensures { option_copied result ≡ noted_content (option_copied noted.entry) }
{
    match noted {
        Some(Old::WasHome(content)) => Some(content),
        _ => None,
    }
}

impl Fabric {
    /// The content of a block at cut k: that of the one holder whom its home names there, the home itself or a cache.
    pub fn block_at(&self, block: BlockNo, k: Interval) -> Block
        requires point { self.now.fabric.point ≤ k }
        requires settled { transaction_before (home_of self.now.fabric block).transaction k ≡ false }
        ensures { HasOneHolderWith self.now.fabric block k result (names_at self.now.fabric block k) }
    {
        *self.content_at(block, k)
    }

    /// The same where it stands: in a log, a cache or a home.
    pub fn content_at(&self, block: BlockNo, k: Interval) -> &Block
        requires point { self.now.fabric.point ≤ k }
        requires settled { transaction_before (home_of self.now.fabric block).transaction k ≡ false }
        ensures { HasOneHolderWith self.now.fabric block k result.now (names_at self.now.fabric block k) }
    {
        // For the prover alone: the sizes fit.
        let _config = &self.config;
        // For the prover alone: the block is one of memory's.
        let _number = block.number();
        match self.owner_at(block, k) {
            Owner::Home => self.content_at_home(block, k),
            Owner::Cache(node) => self.content_at_cache(node, block, k),
        }
    }

    /// The content of a block whose home names itself at cut k.
    fn content_at_home(&self, block: BlockNo, k: Interval) -> &Block
        requires { owner_of (names_at self.now.fabric block k) ≡ Owner.Home }
        ensures { names_at self.now.fabric block k ≡ Itself result.now }
    {
        // For the prover alone: the block is one of memory's.
        let _number = block.number();
        let home = block.home(self.config.nodes);
        let place = usize::from(home.number());
        match noted_content(self.units[place].log.old_at(true, block, k)) {
            Some(content) => content,
            None => self.homes[place].content(block),
        }
    }

    /// The content of a block that a node's cache holds at cut k.
    fn content_at_cache(&self, node: NodeId, block: BlockNo, k: Interval) -> &Block
        requires here { node < length self.now.fabric.nodes }
        requires held { is_some (holds_at self.now.fabric node block k) ≡ true }
        ensures { holds_at self.now.fabric node block k ≡ Some result.now }
    {
        let unit = &self.units[usize::from(node.number())];
        match unit.log.old_at(false, block, k) {
            Some(Old::Owned(content)) => content,
            _ => unit.cache.owned(block).unwrap(),
        }
    }
}
