//! Where entries stand: in each stored entry the place of the one before it of its side and block, and beside the list, for
//! each side and block, the place of the last.
ghost use Rattle.std.specs.Prelude.{◌≡◌, ℕ, ◌<◌, Bool, None, if◌then◌else◌, length, IfOk};

use sn_base::{BLOCKS, BlockNo, LogEntry, Memory, is_home_side};
use sparse_table::SparseTable;
use std::alloc::Global;

/// An entry in its list, and the place of the next older entry of its side and block.
#[derive(Clone, Copy)]
pub struct Stored {
    pub entry: LogEntry,
    pub older: Option<u16>,
}

/// The place of the newest entry of each block, on the home's side and on the cache's. A log has at most 65,535 entries.
/// Most blocks never have one, so only the parts of the tables are written that do.
#[derive(Drop)]
pub struct Newest {
    home: SparseTable<Option<u16>>,
    cache: SparseTable<Option<u16>>,
    ghost home_blocks: { length home ≡ 65536 },
    ghost cache_blocks: { length cache ≡ 65536 },
}

impl Newest {
    ghost use Rattle.log_buffer.specs.Index.{newest_of, are_same, place_now};

    /// A table for a log that has no entry.
    pub fn new(alloc: Global) -> Result<Newest, Memory>
        ensures { IfOk result (λ n. (s : Bool) (b : ℕ) → newest_of n s b ≡ None) }
    {
        let home = SparseTable::new(alloc, BLOCKS)?;
        let cache = SparseTable::new(alloc, BLOCKS)?;
        Ok(Newest { home, cache })
    }

    pub fn of(&self, home_side: bool, block: BlockNo) -> Option<u16>
        ensures place { result ≡ newest_of self.now home_side block }
        ensures small { block < 65536 }
    {
        let places = if home_side { &self.home } else { &self.cache };
        *places.at(usize::from(block.number()))
    }

    pub fn put(&mut self, home_side: bool, block: BlockNo, place: Option<u16>)
        ensures places { (s : Bool) (b : ℕ) →
            newest_of self.new s b ≡ (if are_same home_side block s b then place else newest_of self.old s b) }
    {
        let number = usize::from(block.number());
        if home_side {
            *self.home.at_mut(number) = place;
        } else {
            *self.cache.at_mut(number) = place;
        }
    }

    /// Where the entry before this one of its side and block stands now, by a table that is right for the entries before
    /// this one. Where there was none, the table may still have the place of a later one.
    pub fn before(&self, stored: &Stored) -> Option<u16>
        ensures place { result ≡ place_now self.now stored.now }
        ensures small { stored.now.entry.block < 65536 }
    {
        let place = self.of(is_home_side(&stored.entry.old), stored.entry.block);
        if stored.older.is_none() { None } else { place }
    }
}
