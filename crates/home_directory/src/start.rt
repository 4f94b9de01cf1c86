//! The entries of a home at the start: it owns its blocks, with the bytes that the program gives them.
//!
//! A program gives bytes to few blocks, so only the entries of these are written. All others are the usual one, of a block of
//! zeros.
ghost use Rattle.std.specs.Prelude.{◌≡◌, ℕ, ◌+◌, ◌*◌, ◌<◌, ◌≤◌, ◌^◌, true, length, replicate, slice_index_or, slice_set, IfOk};
ghost use Rattle.sn_base.specs.Image.{bytes_from, byte_in, covers};
ghost use Rattle.sn_model.specs.Homes.{Itself};
ghost use Rattle.sn_model.specs.Fabric.{first_home, no_entry};
ghost use Rattle.home_directory.specs.Home.{places_of, usual_entry, entries_below};

use crate::entry::DirectoryEntry;
use sn_base::{BLOCK_SIZE, Block, BlockNo, Image, Memory, NodeId, NodeSet, RAM_START, Segment};
use sn_model::Owner;
use sparse_table::{SparseTable, Usual};
use std::alloc::Global;

/// The entry of a block that the home owns.
fn owned_entry(memory: Block) -> DirectoryEntry
    ensures { result ≡ record usual_entry { holder = Itself memory } }
{
    DirectoryEntry {
        owner: Owner::Home,
        memory,
        sharers: NodeSet::empty(),
        transaction: None,
    }
}

impl Usual for DirectoryEntry {
    ghost usual = { usual_entry };

    fn usual() -> DirectoryEntry {
        owned_entry(Block::zero())
    }
}

/// Whether the segment gives none of the 64 bytes from an address on: those past the ones that it gives are 0.
fn gives_none(segment: &Segment, start: u64) -> bool
    requires { start < 2 ^ 32 }
    ensures { result ≡ true → (a : ℕ) → start ≤ a → a < start + 64 → covers segment.now a ≡ true → byte_in segment.now a ≡ 0 }
{
    let first = u64::from(segment.start);
    start + 64 <= first || first + segment.bytes.len() as u64 <= start
}

/// Whether no segment gives one of the 64 bytes from an address on.
fn are_zero(image: &Image, start: u64) -> bool
    requires { start < 2 ^ 32 }
    ensures { result ≡ true → bytes_from 64 image.now.segments start ≡ replicate 64 0 }
{
    'segments: for segment in image.segments() {
        if !gives_none(segment, start) {
            return false;
        }
    }
    true
}

/// Whether a block's entry is the usual one.
fn is_usual(image: &Image, block: BlockNo) -> bool
    ensures { result ≡ true → first_home image.now block ≡ usual_entry }
{
    are_zero(
        image,
        u64::from(RAM_START + BLOCK_SIZE * u32::from(block.number())),
    )
}

/// How many blocks have their home at a node of so many.
fn count_places(node: NodeId, nodes: u8) -> u32
    requires inside { node < nodes }
    ensures count { result ≡ places_of node nodes }
    ensures small { result ≤ 65536 }
{
    (65535 - u32::from(node.number())) / u32::from(nodes) + 1
}

/// The block of a place.
fn block_at_place(node: NodeId, nodes: u8, place: u32) -> BlockNo
    requires inside { node < nodes }
    requires few { nodes ≤ 16 }
    requires here { place < places_of node nodes }
    ensures { result ≡ node + nodes * place }
{
    let number = u32::from(node.number()) + u32::from(nodes) * place;
    BlockNo::new(number as u16)
}

/// Gives the place the entry of its block, where that isn't the usual one.
fn begin(entries: &mut SparseTable<DirectoryEntry>, place: u32, image: &Image, block: BlockNo)
    requires inside { place < length entries.old }
    requires usual { slice_index_or entries.old place no_entry ≡ usual_entry }
    ensures { entries.new ≡ slice_set entries.old place (first_home image.now block) }
{
    if is_usual(image, block) {
        return;
    }
    *entries.at_mut(place as usize) = owned_entry(image.block(block));
}

pub fn first_entries(
    alloc: Global,
    node: NodeId,
    nodes: u8,
    image: &Image,
) -> Result<SparseTable<DirectoryEntry>, Memory>
    requires inside { node < nodes }
    requires few { nodes ≤ 16 }
    ensures { IfOk result (λ entries. entries ≡ entries_below (places_of node nodes) image.now node nodes) }
{
    let places = count_places(node, nodes);
    let mut entries = SparseTable::new(alloc, places as usize)?;
    'places: for place in 0..places {
        let block = block_at_place(node, nodes, place);
        begin(&mut entries, place, image, block);
    }
    Ok(entries)
}
