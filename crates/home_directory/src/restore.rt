//! A home is put back to a checkpoint: its transactions end, and each block is held as the log says.
ghost use Rattle.std.specs.Prelude.{◌≡◌, ◌/◌, ◌%◌, ◌<◌, true, length, map};
ghost use Rattle.sn_model.specs.Homes.{Itself, OfCache};
ghost use Rattle.home_directory.specs.Restored.{entry_without_sharers, begun_restore, had, CanHave, Stays, with_holder};
ghost use Rattle.home_directory.specs.Touched.{AreCleared};
ghost use Rattle.home_directory.specs.Restored.{stays-same, stays-along, can-part, can-way};

use crate::Home;
use crate::entry::DirectoryEntry;
use rollback::Restore;
use sn_base::{Block, BlockNo, NodeId, NodeSet, Old};
use sn_model::Owner;
use sparse_table::SparseTable;
use touched_places::Touched;

/// Nobody shares a block, and nothing is open: so it is but for the touched places already.
fn clear_entries(entries: &mut SparseTable<DirectoryEntry>, touched: &Touched)
    requires { AreCleared touched.now entries.old }
    ensures { entries.new ≡ map entry_without_sharers entries.old }
{
    'places: for place in touched.places() {
        let entry = entries.at_mut(*place);
        entry.sharers = NodeSet::empty();
        entry.transaction = None;
    }
}

impl Home {
    /// Begins to put the home back to a checkpoint: all transactions are closed, and nobody shares a block. Who holds the
    /// blocks stays, for `rollback::unwind` to put back. It looks only at the blocks that messages have come about since the
    /// last time.
    pub fn begin_restore(&mut self)
        ensures { self.new ≡ begun_restore self.old }
    {
        clear_entries(&mut self.entries, &self.touched);
        self.touched.clear();
        self.opens.clear();
    }

    fn put_home(&mut self, block: BlockNo, content: &Block)
        requires { block % self.old.nodes ≡ self.old.node }
        ensures put { self.new ≡ with_holder self.old block (Itself content.now) }
        ensures inside { block / self.old.nodes < length self.old.entries }
    {
        let place = self.place(block);
        let entry = self.entries.at_mut(place);
        entry.owner = Owner::Home;
        entry.memory = *content;
    }

    fn put_cache(&mut self, block: BlockNo, node: NodeId)
        requires { block % self.old.nodes ≡ self.old.node }
        ensures put { self.new ≡ with_holder self.old block (OfCache node) }
        ensures inside { block / self.old.nodes < length self.old.entries }
    {
        let place = self.place(block);
        let entry = self.entries.at_mut(place);
        entry.owner = Owner::Cache(node);
    }
}

/// A home holds of each of its blocks who owns it, and nothing of blocks of other homes.
impl Restore for Home {
    ghost home_side = { true };

    ghost holds = { had };

    ghost fits = { CanHave };

    ghost stays = { Stays };

    fn forget(&mut self, _block: BlockNo, _old: &Old) {}

    fn put_back(&mut self, block: BlockNo, old: &Old) {
        match old {
            Old::WasHome(content) => self.put_home(block, content),
            Old::WasCache(node) => self.put_cache(block, *node),
            Old::NotOwned | Old::Owned(_) => {}
        }
    }

    ghost stays_refl = { stays-same };

    ghost stays_trans = { stays-along };

    ghost part = { can-part };

    ghost way = { can-way };
}
