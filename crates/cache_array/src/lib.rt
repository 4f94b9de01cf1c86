//! The frames of a set-associative cache, and which block each of them has.
//!
//! A block may stand in any way of its one set, so that every question about it looks at the ways of that set alone, however
//! large the cache is. The layer above sees the slots of all frames, and keeps what a frame has (a line's state and content,
//! say) by the frame's number. Which block has to go, and when, is not decided here.
#![tactic(auto)]

ghost use Rattle.std.specs.Prelude.{◌≡◌, ℕ, ◌+◌, ◌*◌, ◌<◌, ◌≤◌, ◌≢◌, ◌^◌, false, IfOk, IfSome, IsSome, None, replicate, is_some, is_none};
ghost use Rattle.std.specs.List.{position, list_all};
ghost use Rattle.cache_array.specs.Slots.{AreSlots, block_at, first_of, IsOfSet, is_of, frame_of, ways_of, is_full, slots_with_block, slots_without_block};

#[cfg(test)]
mod tests;

use sn_base::{BlockNo, Memory};
use std::alloc::Global;
use std::marker::Model;

/// The frames. Contracts see the slot of each frame, in order of the frames' numbers: set after set, and way after way.
#[derive(Drop)]
pub struct Frames {
    slots: Vec<Option<BlockNo>>,
    sets: u16,
    ways: u8,
}

impl Model for Frames {
    ghost use Rattle.cache_array.specs.Slots.{FrameSlots, AreSlots};

    ghost Value = { FrameSlots };

    ghost view = { λ f. record { sets = f.sets; ways = f.ways; slots = f.slots.items } };

    ghost invariant = { λ f. AreSlots (record { sets = f.sets; ways = f.ways; slots = f.slots.items }) };
}

fn way_of(ways: &[Option<BlockNo>], block: BlockNo) -> Option<usize>
    ensures { result ≡ position (is_of block) ways.now }
{
    ways.iter().position(|slot| match slot {
        Some(other) => *other == block,
        None => false,
    })
}

fn free_way_of(ways: &[Option<BlockNo>]) -> Option<usize>
    ensures { result ≡ position is_none ways.now }
{
    ways.iter().position(|slot| slot.is_none())
}

fn all_taken(ways: &[Option<BlockNo>]) -> bool
    ensures { result ≡ list_all is_some ways.now }
{
    ways.iter().all(|slot| slot.is_some())
}

impl Frames {
    /// Free frames, for 1 to 256 sets of 1 to 16 ways.
    pub fn new(alloc: Global, sets: u16, ways: u8) -> Result<Frames, Memory>
        requires { 0 < sets }
        ensures frames { IfOk result (λ f. f ≡ record { sets = sets; ways = ways; slots = replicate (sets * ways) None }) }
        ensures good { IfOk result (λ f. AreSlots f) }
    {
        let slots = vec![in alloc; None; usize::from(sets) * usize::from(ways)]?;
        Ok(Frames { slots, sets, ways })
    }

    /// The frame of the first way of the block's set.
    fn first_of(&self, block: BlockNo) -> usize
        ensures frame { result ≡ first_of self.now block }
        ensures of_memory { block < 2 ^ 16 }
        ensures small { result + self.now.ways < 2 ^ 24 }
        ensures good { AreSlots self.now }
    {
        usize::from(block.number() % self.sets) * usize::from(self.ways)
    }

    fn ways_of(&self, block: BlockNo) -> &[Option<BlockNo>]
        ensures ways { result.now ≡ ways_of self.now block }
        ensures of_memory { block < 2 ^ 16 }
        ensures good { AreSlots self.now }
    {
        let first = self.first_of(block);
        &self.slots[first..first + usize::from(self.ways)]
    }

    /// The frame of the block. None exactly where it has none.
    pub fn find(&self, block: BlockNo) -> Option<usize>
        ensures frame { result ≡ frame_of self.now block }
        ensures of_memory { block < 2 ^ 16 }
        ensures good { AreSlots self.now }
    {
        let way = way_of(self.ways_of(block), block)?;
        Some(self.first_of(block) + way)
    }

    /// Whether all ways of the block's set are taken.
    pub fn set_full(&self, block: BlockNo) -> bool
        ensures { result ≡ is_full self.now block }
    {
        all_taken(self.ways_of(block))
    }

    /// Gives the block, which has no frame, the least free one of its set, which isn't full.
    pub fn reserve(&mut self, block: BlockNo) -> usize
        requires new { frame_of self.old block ≡ None }
        requires room { is_full self.old block ≡ false }
        ensures own { IsOfSet self.old result block }
        ensures free { block_at self.old result ≡ None }
        ensures least { (frame : ℕ) → IsOfSet self.old frame block → frame < result → block_at self.old frame ≢ None }
        ensures slots { self.new ≡ slots_with_block self.old result block }
        ensures good { AreSlots self.new }
    {
        let way = free_way_of(self.ways_of(block)).unwrap();
        let frame = self.first_of(block) + way;
        self.slots[frame] = Some(block);
        frame
    }

    /// Frees the frame of the block, which has one.
    pub fn drop_frame(&mut self, block: BlockNo)
        requires { IsSome (frame_of self.old block) }
        ensures slots { IfSome (frame_of self.old block) (λ frame. self.new ≡ slots_without_block self.old frame) }
        ensures good { AreSlots self.new }
    {
        let frame = self.find(block).unwrap();
        self.slots[frame] = None;
    }

    /// The block in a frame. None exactly where it has none.
    pub fn block_in(&self, frame: usize) -> Option<BlockNo>
        requires { frame < self.now.sets * self.now.ways }
        ensures { result ≡ block_at self.now frame }
    {
        self.slots[frame]
    }
}
