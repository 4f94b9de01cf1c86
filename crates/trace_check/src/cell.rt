//! One block, as its accesses leave it.
ghost use Rattle.std.specs.Prelude.{◌≡◌, ℕ, ◌↔◌, true, false, IsTrue};
ghost use Rattle.sn_base.specs.Nodes.{has_node};
ghost use Rattle.rv_core.specs.Wanted.{IsInside, IsAddress, WriteFits};
ghost use Rattle.trace_check.specs.Cells.{Finds, IsAfter, is_lr, still_intact, word_in};

use crate::memory_effect::MemoryEffect;
use rv_core::{Record, Want};
use sn_base::{Block, BlockNo, NodeId, NodeSet, Width};

/// The bytes of a block, and the cores that may still do a store-conditional of it: since such a core's last LR of the
/// block no other core has written it.
#[derive(Clone, Copy, PartialEq, Eq, Debug)]
pub struct Cell {
    pub content: Block,
    pub intact: NodeSet,
}

impl Cell {
    /// Whether an access to this block finds what the earlier ones left.
    pub fn finds(&self, want: Want, taken: &Record) -> bool
        requires { IsInside want }
        ensures { IsTrue result ↔ Finds self.now want taken.now }
    {
        match want {
            Want::Load(address) | Want::Amo(address) | Want::Lr(address) => {
                taken.seen == self.word(address)
            }
            Want::Sc(_) => !taken.sc_done || self.intact.has(taken.core),
            Want::Nothing | Want::Store(_) | Want::Input => true,
        }
    }

    /// The aligned word that holds an address of the block.
    fn word(&self, address: u32) -> u32
        requires { IsAddress address }
        ensures { result ≡ word_in self.now.content address }
    {
        let place = BlockNo::offset(address) / 4 * 4;
        self.content.load(place, Width::Word)
    }

    /// What the access leaves.
    pub fn apply(&mut self, effect: &MemoryEffect, taken: &Record)
        requires { WriteFits effect.now.want taken.now.sc_done effect.now.write }
        ensures { IsAfter self.old effect.now taken.now self.new }
    {
        let write = effect.write();
        if let Some(write) = write {
            let place = BlockNo::offset(write.address);
            self.content.store(place, write.width, write.value);
        }
        self.intact = intact_after(
            self.intact,
            taken.core,
            is_lr(effect.want()),
            write.is_some(),
        );
    }
}

fn is_lr(want: Want) -> bool
    ensures { result ≡ is_lr want }
{
    match want {
        Want::Lr(_) => true,
        _ => false,
    }
}

fn intact_after(intact: NodeSet, core: NodeId, reserves: bool, writes: bool) -> NodeSet
    ensures { (n : ℕ) → has_node result n ≡ still_intact intact core reserves writes n }
{
    let kept = if writes { only(intact, core) } else { intact };
    if reserves { kept.with(core) } else { kept }
}

/// The set without the others.
fn only(intact: NodeSet, core: NodeId) -> NodeSet
    ensures { (n : ℕ) → has_node result n ≡ still_intact intact core false true n }
{
    let none = NodeSet::empty();
    if intact.has(core) {
        none.with(core)
    } else {
        none
    }
}
