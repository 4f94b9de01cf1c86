//! The lines of a cache, each kept by the number of its block's frame.
//!
//! A block has a frame exactly where it has a line, and the frame keeps the line's state and content. Every question about a
//! block, and every change of its line, looks at the frames of its set alone. The layer above sees the line of each block,
//! and how many frames of a set the lines take. A line never finds its set full: who adds one asks before.
ghost use Rattle.std.specs.Prelude.{◌≡◌, ℕ, ◌*◌, ◌+◌, ◌<◌, ◌≤◌, ◌%◌, ◌&&◌, true, false, nat_le, length, slice_set, IfOk, IfSome, IsNone};
ghost use Rattle.std.specs.Prelude.{not, Some};
ghost use Rattle.sn_model.specs.Caches.{no_line, empty_lines, is_present, block_count, frames_taken, cache_of_lines, line_at};
ghost use Rattle.mosi_cache.specs.Frames.{LinesData, HasFrame, line_kept, line_after_miss, is_spared, may_leave, leaves};
ghost use Rattle.mosi_cache.specs.Frames.{lesser_of, leaving_at, IsLeastLeaving};

mod restore;

use cache_array::Frames;
use sn_base::{Block, BlockNo, Memory};
use sn_model::{LineState, Need};
use std::alloc::Global;
use std::marker::Model;
use touched_places::Touched;

/// What a frame keeps: the state and the content of its block's line. What a free frame keeps is never read.
#[derive(Clone, Copy, PartialEq, Eq, Debug)]
pub struct FrameLine {
    pub state: LineState,
    pub content: Block,
}

/// The lines. Contracts see the line of each block, and how many sets and ways there are. A frame that isn't touched is free, or its
/// line is Modified, as a recovery leaves it.
#[derive(Drop)]
pub struct Lines {
    frames: Frames,
    kept: Vec<FrameLine>,
    touched: Touched,
    sets: u16,
    ways: u8,
}

impl Model for Lines {
    ghost use Rattle.std.specs.Prelude.{◌≡◌};
    ghost use Rattle.mosi_cache.specs.Frames.{LinesData, lines_of, AreLines};
    ghost use Rattle.mosi_cache.specs.Unshared.{AreSettled};

    ghost Value = { LinesData };

    ghost view = { λ l. record { lines = lines_of l.frames l.kept.items; sets = l.frames.sets; ways = l.frames.ways } };

    ghost invariant = { λ l. AreLines l.frames l.kept.items × (l.sets ≡ l.frames.sets) × (l.ways ≡ l.frames.ways)
        × AreSettled l.touched l.frames l.kept.items };
}

fn may_go(kept: &FrameLine, number: u16, spared: &Option<BlockNo>, owned_too: bool) -> bool
    ensures { result ≡ (not (is_spared spared.now number) && may_leave owned_too kept.now.state) }
{
    let is_spared = match spared {
        Some(block) => block.number() == number,
        None => false,
    };
    let may_leave = match kept.state {
        LineState::Absent => false,
        LineState::Shared => true,
        LineState::Owned | LineState::Modified | LineState::Exclusive => owned_too,
    };
    !is_spared && may_leave
}

/// The number of the block in a frame, where its line may leave.
fn leaving(
    frames: &Frames,
    kept: &[FrameLine],
    frame: usize,
    spared: &Option<BlockNo>,
    owned_too: bool,
) -> Option<u16>
    requires inside { frame < frames.now.sets * frames.now.ways }
    requires kept { frame < length kept.now }
    ensures { result ≡ leaving_at frames.now kept.now spared.now owned_too frame }
{
    match frames.block_in(frame) {
        Some(block) if may_go(&kept[frame], block.number(), spared, owned_too) => {
            Some(block.number())
        }
        _ => None,
    }
}

fn lesser(least: Option<u16>, number: u16) -> u16
    ensures { Some result ≡ lesser_of least (Some number) }
{
    match least {
        Some(other) => other.min(number),
        None => number,
    }
}

/// The least of the blocks in these frames whose lines may leave.
fn least_of(
    frames: &Frames,
    kept: &[FrameLine],
    first: usize,
    end: usize,
    spared: &Option<BlockNo>,
    owned_too: bool,
) -> Option<u16>
    requires some { first ≤ end }
    requires inside { end ≤ frames.now.sets * frames.now.ways }
    requires kept { end ≤ length kept.now }
    ensures { IsLeastLeaving (leaving_at frames.now kept.now spared.now owned_too) first end result }
{
    let mut least = None;
    'frames: for frame in first..end {
        if let Some(number) = leaving(frames, kept, frame, spared, owned_too) {
            least = Some(lesser(least, number));
        }
    }
    least
}

impl Lines {
    /// No lines, with a frame for each way of so many sets.
    pub fn new(alloc: Global, sets: u16, ways: u8) -> Result<Lines, Memory>
        requires { 0 < sets }
        ensures { IfOk result (λ l. l ≡ record { lines = empty_lines; sets = sets; ways = ways }) }
    {
        let frames = Frames::new(alloc, sets, ways)?;
        let nothing = FrameLine {
            state: LineState::Absent,
            content: Block::zero(),
        };
        let kept = vec![in alloc; nothing; usize::from(sets) * usize::from(ways)]?;
        let touched = Touched::new(alloc, kept.len())?;
        Ok(Lines {
            frames,
            kept,
            touched,
            sets,
            ways,
        })
    }

    /// What the frame of the block keeps, where it has one.
    pub fn find(&self, block: BlockNo) -> Option<&FrameLine>
        ensures none { IsNone result → line_at self.now.lines block ≡ no_line }
        ensures some { IfSome result (λ k. (line_at self.now.lines block ≡ line_kept k.now) × (is_present k.now.state ≡ true)) }
    {
        let frame = self.frames.find(block)?;
        Some(&self.kept[frame])
    }

    pub fn state(&self, block: BlockNo) -> LineState
        ensures { result ≡ (line_at self.now.lines block).state }
    {
        match self.find(block) {
            Some(kept) => kept.state,
            None => LineState::Absent,
        }
    }

    /// The content of a block that has a line.
    pub fn content(&self, block: BlockNo) -> Block
        requires { is_present (line_at self.now.lines block).state ≡ true }
        ensures { result ≡ (line_at self.now.lines block).content }
    {
        let Some(kept) = self.find(block) else {
            unreachable!()
        };
        kept.content
    }

    /// The block's line is this one now, whether it had one or not.
    pub fn put(&mut self, block: BlockNo, state: LineState, content: Block)
        requires line { is_present state ≡ true }
        requires room { HasFrame self.old block }
        ensures lines { self.new
            ≡ record self.old { lines = slice_set self.old.lines block (record { state = state; content = content }) } }
        ensures read { line_at self.new.lines block ≡ record { state = state; content = content } }
    {
        let line = FrameLine { state, content };
        match self.frames.find(block) {
            Some(frame) => {
                self.touched.touch(frame);
                self.kept[frame] = line;
            }
            None => {
                let frame = self.frames.reserve(block);
                self.touched.touch(frame);
                self.kept[frame] = line;
            }
        }
    }

    /// The block's line goes, where it has one.
    pub fn remove(&mut self, block: BlockNo)
        ensures lines { self.new ≡ record self.old { lines = slice_set self.old.lines block no_line } }
        ensures gone { line_at self.new.lines block ≡ no_line }
    {
        if self.frames.find(block).is_some() {
            self.frames.drop_frame(block);
        }
    }

    /// The block's miss is complete: where it was for a write, the block's line is Modified, if it has one.
    pub fn complete(&mut self, block: BlockNo, need: Need)
        ensures { self.new ≡ record self.old { lines = slice_set self.old.lines block (line_after_miss (line_at self.old.lines block) need) } }
    {
        if need == Need::Write
            && let Some(kept) = self.find(block)
        {
            let content = kept.content;
            self.put(block, LineState::Modified, content);
        }
    }

    /// Whether the lines take all frames of the block's set.
    pub fn is_full(&self, block: BlockNo) -> bool
        ensures { result ≡ nat_le self.now.ways (frames_taken (cache_of_lines self.now.lines) self.now.sets block) }
    {
        self.frames.set_full(block)
    }

    /// The least block with a line in the set of a block that may leave: a Shared line, or, where that is asked for, one
    /// that owns its block; but not the line of the block that is spared.
    pub fn least(&self, block: BlockNo, spared: Option<BlockNo>, owned_too: bool) -> Option<BlockNo>
        ensures none { IsNone result → (k : ℕ) → k < block_count →
            leaves self.now.sets (block % self.now.sets) spared owned_too k (line_at self.now.lines k).state ≡ false }
        ensures some { IfSome result
            (λ b. (leaves self.now.sets (block % self.now.sets) spared owned_too b (line_at self.now.lines b).state ≡ true)
            × ((k : ℕ) → k < b → leaves self.now.sets (block % self.now.sets) spared owned_too k (line_at self.now.lines k).state
            ≡ false)) }
    {
        let ways = usize::from(self.ways);
        let first = usize::from(block.number() % self.sets) * ways;
        let number = least_of(
            &self.frames,
            &self.kept,
            first,
            first + ways,
            &spared,
            owned_too,
        )?;
        Some(BlockNo::new(number))
    }
}
