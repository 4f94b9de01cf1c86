//! The cells of the blocks that were accessed.
ghost use Rattle.std.specs.Prelude.{◌≡◌, ◌≢◌, ℕ, ◌<◌, ◌↔◌, true, false, [], length, slice_index_or, IfOk, IsTrue};
ghost use Rattle.trace_check.specs.Cells.{Finds, IsAfter};
ghost use Rattle.trace_check.specs.CellPlaces.{IsWide, cell_at, first_cell, missing};
ghost use Rattle.trace_check.specs.Parts.{IsFitting};

use crate::cell::Cell;
use crate::memory_effect::MemoryEffect;
use rv_core::Record;
use sn_base::{BLOCKS, BlockNo, Image, Memory, NodeSet};
use std::alloc::Global;

/// A cell, and the block that it is of.
#[derive(Drop)]
pub struct BlockCell {
    pub block: BlockNo,
    pub cell: Cell,
}

/// The cells of blocks. Each is made at the first access to its block, since most traces have accesses to few blocks, and
/// all 65,536 cells would be 5 MB of memory to write.
///
/// `places` says for each block where its cell is in `kept`. Where there is none, or the cell of another block, its own
/// wasn't made.
#[derive(Drop)]
pub struct Cells {
    pub places: Vec<u16>,
    pub kept: Vec<BlockCell>,
}

impl Cells {
    pub fn new(alloc: Global) -> Result<Cells, Memory>
        ensures wide { IfOk result (λ cells. IsWide cells) }
        ensures none { IfOk result (λ cells. cells.kept.items ≡ []) }
    {
        let places = Vec::from_elem(alloc, 0u16, BLOCKS)?;
        Ok(Cells {
            places,
            kept: Vec::new(alloc),
        })
    }

    /// Whether an access to the block finds what the earlier ones left. If so, it is done.
    pub fn replay(
        &mut self,
        image: &Image,
        block: BlockNo,
        effect: &MemoryEffect,
        taken: &Record,
    ) -> Result<bool, Memory>
        requires wide { IsWide self.old }
        requires fits { IsFitting effect.now taken.now }
        ensures wide { IsWide self.new }
        ensures finds { IfOk result (λ found. IsTrue found ↔ Finds (cell_at image.now self.old block) effect.now.want taken.now) }
        ensures after { IfOk result (λ found. found ≡ true →
            IsAfter (cell_at image.now self.old block) effect.now taken.now (cell_at image.now self.new block)) }
        ensures others { IfOk result (λ found. (b : ℕ) → b ≢ block → cell_at image.now self.new b ≡ cell_at image.now self.old b) }
    {
        let place = self.place_of(image, block)?;
        Ok(replay_cell(&mut self.kept[place].cell, effect, taken))
    }

    /// Where the block's cell is, which is made now if it wasn't yet.
    fn place_of(&mut self, image: &Image, block: BlockNo) -> Result<usize, Memory>
        requires wide { IsWide self.old }
        ensures wide { IsWide self.new }
        ensures same { IfOk result (λ place. (b : ℕ) → cell_at image.now self.new b ≡ cell_at image.now self.old b) }
        ensures inside { IfOk result (λ place. place < length self.new.kept.items) }
        ensures place { IfOk result (λ place. slice_index_or self.new.places.items block 0 ≡ place) }
        ensures block { IfOk result (λ place. (slice_index_or self.new.kept.items place (missing block)).block ≡ block) }
    {
        let place = usize::from(self.places[usize::from(block.number())]);
        if place < self.kept.len() && self.kept[place].block == block {
            return Ok(place);
        }
        self.add(image, block)
    }

    /// Makes the cell of a block that has none.
    fn add(&mut self, image: &Image, block: BlockNo) -> Result<usize, Memory>
        requires wide { IsWide self.old }
        requires none { cell_at image.now self.old block ≡ first_cell image.now block }
        ensures wide { IsWide self.new }
        ensures same { IfOk result (λ place. (b : ℕ) → cell_at image.now self.new b ≡ cell_at image.now self.old b) }
        ensures inside { IfOk result (λ place. place < length self.new.kept.items) }
        ensures place { IfOk result (λ place. slice_index_or self.new.places.items block 0 ≡ place) }
        ensures block { IfOk result (λ place. (slice_index_or self.new.kept.items place (missing block)).block ≡ block) }
    {
        // There are 65,536 blocks, so it always fits.
        let Ok(place) = u16::try_from(self.kept.len()) else {
            return Err(Memory);
        };
        self.kept.push(BlockCell {
            block,
            cell: start(image, block),
        })?;
        self.places[usize::from(block.number())] = place;
        Ok(usize::from(place))
    }
}

/// A block's cell at the start.
fn start(image: &Image, block: BlockNo) -> Cell
    ensures { result ≡ first_cell image.now block }
{
    Cell {
        content: image.block(block),
        intact: NodeSet::empty(),
    }
}

fn replay_cell(cell: &mut Cell, effect: &MemoryEffect, taken: &Record) -> bool
    requires { IsFitting effect.now taken.now }
    ensures finds { IsTrue result ↔ Finds cell.old effect.now.want taken.now }
    ensures after { result ≡ true → IsAfter cell.old effect.now taken.now cell.new }
    ensures kept { result ≡ false → cell.new ≡ cell.old }
{
    if !cell.finds(effect.want(), taken) {
        return false;
    }
    cell.apply(effect, taken);
    true
}
