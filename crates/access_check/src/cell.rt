//! One block, as the accesses so far leave it.
ghost use Rattle.std.specs.Prelude.{◌≡◌, ℕ, ◌↔◌, ◌+◌, ◌≤◌, true, false, Bool, is_some, not, ◌&&◌, ◌||◌, ◌==◌, if◌then◌else◌, replicate};
ghost use Rattle.sn_base.specs.Nodes.{has_node};
ghost use Rattle.sn_base.specs.declared.block.Write.{Write};
ghost use Rattle.sn_consistency.specs.Words.{write_block, block_word};
ghost use Rattle.access_check.specs.Accesses.{IsFittingAccess, is_lr, write_of, written_by};
ghost use Rattle.access_check.specs.Legal.{part_of, value_in};
ghost use Rattle.access_check.specs.Blocks.{still_intact};

use crate::access::Access;
use sn_base::{Block, BlockNo, NodeId, NodeSet, Width};

/// The bytes of a block, and the cores for which no other core has written it since their last LR of it.
#[derive(Clone, Copy, PartialEq, Eq, Debug)]
pub struct Cell {
    pub content: Block,
    pub intact: NodeSet,
}

/// The bytes of a word from an address on, as a number.
fn part_of(word: u32, address: u32, width: Width) -> u32
    ensures { result ≡ part_of word address width }
{
    let from = word >> (8 * (address % 4));
    match width {
        Width::Byte => from % 0x100,
        Width::Half => from % 0x1_0000,
        Width::Word => from,
    }
}

impl Cell {
    /// A block of zeros that nobody has accessed.
    pub fn zero() -> Cell
        ensures { result ≡ record { content = replicate 64 0; intact = replicate 16 false } }
    {
        Cell {
            content: Block::zero(),
            intact: NodeSet::empty(),
        }
    }

    /// The value that the block has where the access is.
    #[tactic(auto, unfolding(sn_consistency::specs::Words::block_word))]
    pub fn value(&self, access: &Access) -> u32
        requires { IsFittingAccess access.now }
        ensures { result ≡ value_in self.now.content access.now }
    {
        let place = BlockNo::offset(access.address) / 4 * 4;
        let word = self.content.load(place, Width::Word);
        part_of(word, access.address, access.width)
    }

    /// What an access to the block leaves of it.
    pub fn apply(&mut self, access: &Access)
        requires { IsFittingAccess access.now }
        ensures content { self.new.content ≡ write_block (write_of access.now) self.old.content }
        ensures intact { (n : ℕ) → has_node self.new.intact n ≡
            still_intact self.old.intact access.now.core (is_lr access.now.operation) (is_some (written_by access.now.operation)) n }
    {
        let write = access.write();
        if let Some(write) = write {
            let place = BlockNo::offset(write.address);
            self.content.store(place, write.width, write.value);
        }
        let reserves = access.operation.is_lr();
        self.intact = intact_after(self.intact, access.core, reserves, write.is_some());
    }
}

fn intact_after(intact: NodeSet, core: NodeId, reserves: bool, writes: bool) -> NodeSet
    ensures { (n : ℕ) → has_node result n ≡ still_intact intact core reserves writes n }
{
    let kept = if writes { only(intact, core) } else { intact };
    if reserves { kept.with(core) } else { kept }
}

/// The set without the others.
fn only(intact: NodeSet, core: NodeId) -> NodeSet
    ensures { (n : ℕ) → has_node result n ≡ still_intact intact core false true n }
{
    let none = NodeSet::empty();
    if intact.has(core) {
        none.with(core)
    } else {
        none
    }
}
