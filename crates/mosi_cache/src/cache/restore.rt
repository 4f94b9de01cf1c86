//! A recovery: the cache goes back to what it owned at a checkpoint, by unwinding its node's log into it.
//!
//! Once the recovery has begun there are no Shared copies and nothing is open, so that the blocks which the cache owned at the
//! checkpoint have room as they had then. What was got since is let go and what was lost since is put back, each in Modified,
//! which is the one state that needs no other node's knowledge.
ghost use Rattle.std.specs.Prelude.{◌≡◌, false};
ghost use Rattle.rollback.specs.Unwound.{contents_with_old};
ghost use Rattle.sn_model.specs.Caches.{line_of, with_line, FitsSets};
ghost use Rattle.mosi_cache.specs.Restored.{begun_restore, held_of, HeldFits, StaysAsItIs};
ghost use Rattle.mosi_cache.specs.PartsFit.{fits-part, fits-way, stays-same, stays-along};

use super::Cache;
use atomicity_point::TxnTable;
use rollback::Restore;
use sn_base::{Block, BlockNo, Old};
use sn_model::LineState;

impl Cache {
    /// Begins a recovery: Shared copies are dropped, the open miss and the open put are given up, and each line that owns its
    /// block is Modified. It looks only at the frames that were touched since the last time. What is left is what `unwind` goes back
    /// from.
    pub fn begin_restore(&mut self)
        ensures { self.new ≡ record self.old { cache = begun_restore self.old.cache } }
    {
        self.lines.keep_owned();
        self.transactions = TxnTable::new();
    }

    fn hold(&mut self, block: BlockNo, content: Block)
        requires { HeldFits self.old (contents_with_old false (held_of self.old) block (Old.Owned content)) }
        ensures cache { self.new ≡ record self.old { cache = with_line self.old.cache block LineState.Modified content } }
        ensures read { line_of self.new.cache block ≡ record { state = LineState.Modified; content = content } }
        ensures fits { FitsSets self.new.cache self.new.sets self.new.ways }
    {
        self.lines.put(block, LineState::Modified, content);
    }
}

impl Restore for Cache {
    ghost home_side = { false };

    ghost holds = { held_of };

    ghost fits = { HeldFits };

    ghost stays = { StaysAsItIs };

    fn forget(&mut self, block: BlockNo, old: &Old) {
        let lines = &mut self.lines;
        match old {
            Old::NotOwned | Old::Owned(_) => lines.remove(block),
            Old::WasHome(_) | Old::WasCache(_) => {}
        }
    }

    fn put_back(&mut self, block: BlockNo, old: &Old) {
        match old {
            Old::NotOwned => self.forget(block, old),
            Old::Owned(content) => self.hold(block, *content),
            Old::WasHome(_) | Old::WasCache(_) => {}
        }
    }

    ghost stays_refl = { stays-same };

    ghost stays_trans = { stays-along };

    ghost part = { fits-part };

    ghost way = { fits-way };
}
