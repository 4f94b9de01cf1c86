//! What a log keeps: the content or the name that a block had before it changed.
ghost use Rattle.std.specs.Prelude.{◌≡◌, ℕ, ◌<◌, List, length, slice_get, Some};
ghost use Rattle.sn_base.specs.Entries.{is_home_side, is_about, place_before};

use crate::Interval;
use crate::block::{Block, BlockNo};
use crate::node::NodeId;

/// What stood before a change. `NotOwned` and `Owned` are entries of the cache's side: the cache didn't own the block,
/// or owned it with this content. `WasHome` and `WasCache` are entries of the home's side: the home itself owned the
/// block with this content, or this node's cache did.
#[derive(Clone, Copy, PartialEq, Eq, Debug)]
pub enum Old {
    NotOwned,
    Owned(Block),
    WasHome(Block),
    WasCache(NodeId),
}

/// An entry of a log: the first change of a block's ownership or content in an interval, on one side.
#[derive(Clone, Copy, PartialEq, Eq, Debug)]
pub struct LogEntry {
    pub interval: Interval,
    pub block: BlockNo,
    pub old: Old,
}

/// Whether an entry with this old content is of the home's side, and not of the cache's.
pub fn is_home_side(old: &Old) -> bool
    ensures { result ≡ is_home_side old.now }
{
    match old {
        Old::NotOwned | Old::Owned(_) => false,
        Old::WasHome(_) | Old::WasCache(_) => true,
    }
}

fn is_about(entry: &LogEntry, home_side: bool, block: BlockNo) -> bool
    ensures { result ≡ is_about home_side block entry.now }
{
    let home_entry = is_home_side(&entry.old);
    let same_side = if home_side { home_entry } else { !home_entry };
    same_side && entry.block == block
}

/// Something that has log entries, oldest first.
pub trait Entries {
    ghost use Rattle.sn_base.specs.declared.log.LogEntry.{LogEntry};

    ghost entries: { Self → List LogEntry };

    /// How many entries there are.
    fn count(&self) -> usize
        ensures { result ≡ length (entries self.now) };

    /// The entry at a place, which is below `count`; place 0 is the oldest.
    fn entry(&self, place: usize) -> &LogEntry
        requires { place < length (entries self.now) }
        ensures { slice_get (entries self.now) place ≡ Some result.now };

    /// The place of the last entry before this one that is of its side and block; none where it is the first of them. This
    /// body searches; a log that keeps these places has its own.
    fn older(&self, place: usize) -> Option<usize>
        requires { place < length (entries self.now) }
        ensures { (e : LogEntry) → slice_get (entries self.now) place ≡ Some e → result ≡ place_before (entries self.now) place e }
    {
        let entry = self.entry(place);
        let home_side = is_home_side(&entry.old);
        let mut found = None;
        'places: for before in 0..place {
            if is_about(self.entry(before), home_side, entry.block) {
                found = Some(before);
            }
        }
        found
    }
}
