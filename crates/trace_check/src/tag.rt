//! The tag of what a record does: whether it is an access to memory, and to a block of which part.
ghost use Rattle.std.specs.Prelude.{◌≡◌, suc, ◌%◌, ◌<◌, ◌≤◌, ◌↔◌, true, cond, IfSome, IsSome, IsTrue};
ghost use Rattle.rv_core.specs.Core.{is_access, block_of};
ghost use Rattle.rv_core.specs.Wanted.{IsAddress, IsInside};
ghost use Rattle.trace_check.specs.Tags.{of_access, tag_by, wanted_block};

use rv_core::Want;
use sn_base::{BLOCK_SIZE, BlockNo, RAM_START};

/// One of so many parts of the blocks.
#[derive(Clone, Copy)]
pub struct Part {
    pub count: u16,
    pub number: u16,
}

/// The tag of what wants this, with so many parts.
pub fn tag_of(want: Want, parts: u16) -> u8
    requires some { 0 < parts }
    requires few { parts ≤ 16 }
    requires inside { IsInside want }
    ensures { result ≡ tag_by parts want }
{
    match block_in(want) {
        None => 0,
        Some(block) => part_of(block, parts) as u8 + 1,
    }
}

/// Whether the tag is of an access to a block of the part.
pub fn is_of(tag: u8, part: Part) -> bool
    ensures { IsTrue result ↔ (tag ≡ suc part.number) }
{
    tag > 0 && u16::from(tag - 1) == part.number
}

/// How many accesses the tag is of.
pub fn accesses(tag: u8) -> usize
    ensures { result ≡ cond (of_access tag) 1 0 }
{
    match tag {
        0 => 0,
        _ => 1,
    }
}

/// The block that is accessed.
pub fn block_in(want: Want) -> Option<BlockNo>
    requires { IsInside want }
    ensures some { IsSome result ↔ (is_access want ≡ true) }
    ensures block { IfSome result (λ block. block ≡ wanted_block want) }
{
    match want {
        Want::Load(address)
        | Want::Store(address)
        | Want::Amo(address)
        | Want::Lr(address)
        | Want::Sc(address) => Some(block_at(address)),
        Want::Nothing | Want::Input => None,
    }
}

/// The block of an address of memory.
fn block_at(address: u32) -> BlockNo
    requires { IsAddress address }
    ensures { result ≡ block_of address }
{
    // `BlockNo::of` would test for each access what is known here.
    BlockNo::new(((address - RAM_START) / BLOCK_SIZE) as u16)
}

/// The number of a block's part.
fn part_of(block: BlockNo, parts: u16) -> u16
    requires { 0 < parts }
    ensures { result ≡ block % parts }
{
    // It is asked of each access, and a division takes longer than the rest.
    match parts {
        1 => 0,
        2 => block.number() % 2,
        4 => block.number() % 4,
        8 => block.number() % 8,
        16 => block.number() % 16,
        _ => block.number() % parts,
    }
}
