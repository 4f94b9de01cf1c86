//! The bytes with which blocks begin.
ghost use Rattle.std.specs.Prelude.{◌≡◌, ℕ, ◌+◌, ◌*◌, ◌<◌, ◌≤◌, ◌^◌, true, false, replicate};
ghost use Rattle.sn_base.specs.Blocks.{ram_start};
ghost use Rattle.sn_base.specs.Image.{bytes_from, covers};

use crate::block::{Block, BlockNo, Width};
use crate::image::{Image, Segment};
use crate::limits::{BLOCK_SIZE, RAM_START};

impl Image {
    /// The bytes that a block begins with.
    pub fn block(&self, block: BlockNo) -> Block
        ensures { result ≡ bytes_from 64 self.now.segments (ram_start + 64 * block) }
    {
        // Most blocks are given nothing, and a home has thousands.
        if is_given_none(self, block) {
            return Block::zero();
        }
        given_content(self, block)
    }
}

/// Whether no segment has an address of the block: then its bytes are 0.
fn is_given_none(image: &Image, block: BlockNo) -> bool
    ensures { result ≡ true → bytes_from 64 image.now.segments (ram_start + 64 * block) ≡ replicate 64 0 }
{
    let start = u64::from(RAM_START + BLOCK_SIZE * u32::from(block.number()));
    'segments: for segment in image.segments() {
        if reaches(segment, start) {
            return false;
        }
    }
    true
}

/// Whether the segment has one of the 64 addresses.
fn reaches(segment: &Segment, start: u64) -> bool
    requires { start < 2 ^ 32 }
    ensures { result ≡ false → (a : ℕ) → start ≤ a → a < start + 64 → covers segment.now a ≡ false }
{
    let first = u64::from(segment.start);
    first < start + 64 && start < first + u64::from(segment.size)
}

/// The block's bytes, one by one.
fn given_content(image: &Image, block: BlockNo) -> Block
    ensures { result ≡ bytes_from 64 image.now.segments (ram_start + 64 * block) }
{
    let start = RAM_START + BLOCK_SIZE * u32::from(block.number());
    let mut content = Block::zero();
    'bytes: for place in 0..BLOCK_SIZE {
        let byte = image.byte(start + place);
        content.store(place as usize, Width::Byte, u32::from(byte));
    }
    content
}
