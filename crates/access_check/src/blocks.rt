//! All blocks, and the reservations of the cores.
ghost use Rattle.std.specs.Prelude.{◌≡◌, ℕ, ◌-◌, ◌↔◌, All, IfOk, IsTrue, List, length};
ghost use Rattle.byteorder.specs.Endian.{little_bytes};
ghost use Rattle.sn_base.specs.Blocks.{ram_start, ram_size, stored_in};
ghost use Rattle.rv_core.specs.Core.{block_of};
ghost use Rattle.access_check.specs.Accesses.{IsFittingAccess, IsFittingWord};
ghost use Rattle.access_check.specs.Legal.{MemoryState, IsLegal, memory_after, memory_of, start_of, value_in};
ghost use Rattle.access_check.specs.Blocks.{IsWide, Shows};

use crate::access::{Access, StartWord};
use crate::cell::Cell;
use sn_base::{BLOCK_SIZE, BLOCKS, BlockNo, Memory, RAM_START, Width};
use std::alloc::Global;

/// Memory as the accesses so far leave it: a cell for each block, and the block that each core has reserved by its own
/// accesses. All cells are made at once: they are 5 MB, of which a list of accesses touches what it names.
#[derive(Drop)]
pub struct Blocks {
    pub cells: Vec<Cell>,
    pub reserved: [Option<BlockNo>; 16],
}

impl Blocks {
    /// Memory before the first access.
    pub fn start(alloc: Global, words: &[StartWord]) -> Result<Blocks, Memory>
        requires { All IsFittingWord words.now }
        ensures wide { IfOk result (λ blocks. IsWide blocks) }
        ensures shows { IfOk result (λ blocks. Shows blocks (start_of words.now)) }
    {
        let cells = Vec::from_elem(alloc, Cell::zero(), BLOCKS)?;
        let mut blocks = Blocks {
            cells,
            reserved: [None; 16],
        };
        'words: for place in 0..words.len() {
            let word = words[place];
            blocks.put(&word);
        }
        Ok(blocks)
    }

    /// Stores a word that memory has from the start.
    fn put(&mut self, word: &StartWord)
        requires wide { IsWide self.old }
        requires fits { IsFittingWord word.now }
        ensures wide { IsWide self.new }
        ensures shows { (bytes : List ℕ) → length bytes ≡ ram_size → Shows self.old (memory_of bytes) →
            Shows self.new (memory_of (stored_in bytes (word.now.address - ram_start) (little_bytes 4 word.now.word))) }
    {
        let block = (word.address - RAM_START) / BLOCK_SIZE;
        let place = BlockNo::offset(word.address);
        self.cells[block as usize]
            .content
            .store(place, Width::Word, word.word);
    }

    /// Whether an access is legal.
    pub fn allows(&self, access: &Access) -> bool
        requires wide { IsWide self.now }
        requires fits { IsFittingAccess access.now }
        ensures { (m : MemoryState) → Shows self.now m → IsTrue result ↔ IsLegal m access.now }
    {
        let block = access.block();
        let cell = &self.cells[usize::from(block.number())];
        if let Some(value) = access.operation.seen() {
            return value == cell.value(access);
        }
        !access.operation.is_done()
            || (self.reserved[usize::from(access.core.number())] == Some(block)
                && cell.intact.has(access.core))
    }

    /// Does an access.
    pub fn apply(&mut self, access: &Access)
        requires wide { IsWide self.old }
        requires fits { IsFittingAccess access.now }
        ensures wide { IsWide self.new }
        ensures shows { (m : MemoryState) → Shows self.old m → Shows self.new (memory_after m access.now) }
    {
        let block = access.block();
        self.cells[usize::from(block.number())].apply(access);
        let core = usize::from(access.core.number());
        if access.operation.is_lr() {
            self.reserved[core] = Some(block);
        } else if access.operation.is_sc() {
            self.reserved[core] = None;
        }
    }

    /// The value that memory has where an access is.
    pub fn value(&self, access: &Access) -> u32
        requires wide { IsWide self.now }
        requires fits { IsFittingAccess access.now }
        ensures { (m : MemoryState) → Shows self.now m → result ≡ value_in (m.blocks (block_of access.now.address)).content access.now }
    {
        let block = access.block();
        self.cells[usize::from(block.number())].value(access)
    }
}
