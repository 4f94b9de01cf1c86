//! The checkpoint log of one node.
//!
//! Before a block's content or ownership changes for the first time in an interval, what stood there is noted. So what
//! stood at a checkpoint can be told from the log: it is the old content of the block's entry with the least interval
//! that isn't below the checkpoint, or what stands now where there is none. The layer above sees a list of entries,
//! oldest first, and how many it may hold. A log never looks at the blocks themselves, and takes memory only when it is
//! made. Who asks for a block's entries meets these alone, the newest first, however many others there are.
//!
//! Source: checkpoint log buffers of SafetyNet (Sorin, Martin, Hill, Wood, ISCA 2002).
#![tactic(auto)]

ghost use Rattle.std.specs.Prelude.{◌≡◌, ◌+◌, ◌-◌, ◌<◌, ◌≤◌, ◌^◌, ◌&&◌, Bool, true, false, nat_eq, nat_le, [], length, IfOk, option_copied};
ghost use Rattle.log_buffer.specs.Log.{LogData, IsLog, is_home_side, old_at, has_entry, log_with_note, entries_from, logged_to};

mod places;
mod renewal;

use places::{Newest, Stored};
use renewal::{close_up, forget};
pub use sn_base::is_home_side;
use sn_base::{BlockNo, Entries, Interval, LogEntry, Memory, Old};
use std::alloc::Global;
use std::marker::Model;

/// A log. Contracts see its entries, oldest first, and its limit.
#[derive(Drop)]
pub struct LogBuffer {
    stored: Vec<Stored>,
    newest: Newest,
    limit: usize,
}

impl Model for LogBuffer {
    ghost use Rattle.std.specs.Prelude.{vec_capacity};
    ghost use Rattle.log_buffer.specs.Log.{LogData};
    ghost use Rattle.log_buffer.specs.Index.{entries_of, IsIndexedLog};

    ghost Value = { LogData };

    ghost view = { λ b. record { entries = entries_of b.stored.items; limit = b.limit } };

    ghost invariant = { λ b. IsIndexedLog b.stored.items b.newest b.limit (vec_capacity b.stored) };
}

impl LogBuffer {
    /// An empty log for so many entries.
    pub fn new(alloc: Global, limit: u16) -> Result<LogBuffer, Memory>
        ensures { IfOk result (λ b. b ≡ record { entries = []; limit = limit }) }
    {
        let limit = usize::from(limit);
        let stored = Vec::with_capacity(alloc, limit)?;
        let newest = Newest::new(alloc)?;
        Ok(LogBuffer {
            stored,
            newest,
            limit,
        })
    }

    /// How many more entries fit.
    pub fn room(&self) -> usize
        ensures left { result ≡ self.now.limit - length self.now.entries }
        ensures good { IsLog self.now }
    {
        self.limit - self.stored.len()
    }

    /// Whether there is an entry of this interval, side and block. The side is the home's, or else the cache's.
    pub fn has(&self, interval: Interval, home_side: bool, block: BlockNo) -> bool
        ensures { result ≡ has_entry self.now.entries interval home_side block }
    {
        let mut place = self.newest.of(home_side, block);
        'older: while let Some(at) = place {
            let stored = &self.stored[usize::from(at)];
            if stored.entry.interval <= interval {
                return stored.entry.interval == interval;
            }
            place = stored.older;
        }
        false
    }

    /// Notes what stood before a change. Only the first change of the block on its side in an interval adds an entry.
    pub fn note(&mut self, interval: Interval, block: BlockNo, old: Old)
        requires room { has_entry self.old.entries interval (is_home_side old) block ≡ false → length self.old.entries < self.old.limit }
        requires latest { logged_to self.old.entries (is_home_side old) block ≤ interval + 1 }
        ensures { self.new ≡ record self.old { entries = log_with_note self.old.entries interval block old } }
    {
        let home_side = is_home_side(&old);
        if self.has(interval, home_side, block) {
            return;
        }
        let place = self.stored.len() as u16;
        let older = self.newest.of(home_side, block);
        let entry = LogEntry {
            interval,
            block,
            old,
        };
        self.stored.push(Stored { entry, older }).unwrap();
        self.newest.put(home_side, block, Some(place));
    }

    /// What stood at checkpoint k, where the block has changed on this side since.
    pub fn old_at(&self, home_side: bool, block: BlockNo, k: Interval) -> Option<&Old>
        ensures old { option_copied result ≡ old_at self.now.entries home_side block k }
        ensures good { IsLog self.now }
    {
        let mut found = None;
        let mut place = self.newest.of(home_side, block);
        'older: while let Some(at) = place {
            let stored = &self.stored[usize::from(at)];
            if stored.entry.interval < k {
                return found;
            }
            found = Some(&stored.entry.old);
            place = stored.older;
        }
        found
    }

    /// Drops the entries of intervals below k, once no recovery goes back below checkpoint k.
    pub fn free_below(&mut self, k: Interval)
        ensures { self.new ≡ record self.old { entries = entries_from k self.old.entries } }
    {
        let kept = close_up(self.stored.as_mut_slice(), &mut self.newest, k);
        self.stored.truncate(kept);
    }

    pub fn clear(&mut self)
        ensures { self.new ≡ record self.old { entries = [] } }
    {
        forget(self.stored.as_slice(), &mut self.newest);
        self.stored.clear();
    }
}

impl Entries for LogBuffer {
    ghost use Rattle.log_buffer.specs.Log.{LogData};

    ghost entries = { λ b. b.entries };

    fn count(&self) -> usize {
        self.stored.len()
    }

    fn entry(&self, place: usize) -> &LogEntry {
        &self.stored[place].entry
    }

    fn older(&self, place: usize) -> Option<usize> {
        self.stored[place].older.map(usize::from)
    }
}
