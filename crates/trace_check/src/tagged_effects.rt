//! What a core's records do in memory, as its slot keeps it.
ghost use Rattle.std.specs.Prelude.{◌≡◌, ◌<◌, ◌≤◌, ◌++◌, [], ◌∷◌, List, IfOk, OnOk};
ghost use Rattle.rv_core.specs.Wanted.{IsInside};
ghost use Rattle.trace_check.specs.EffectData.{EffectData};
ghost use Rattle.trace_check.specs.Tags.{KeepsNone, AreKept};

use crate::memory_effect::MemoryEffect;
use crate::tag::tag_of;
use sn_base::Memory;
use std::alloc::Global;

/// A tag for each record of the core, and what the accesses among them do.
///
/// Each part of the blocks walks over all records, and asks of most of them no more than whether it is its own. So that is
/// one byte, and what is no access takes no other.
#[derive(Drop)]
pub struct TaggedEffects {
    pub tags: Vec<u8>,
    pub accesses: Vec<MemoryEffect>,
}

impl TaggedEffects {
    pub fn new(alloc: Global) -> TaggedEffects
        ensures { KeepsNone result }
    {
        TaggedEffects {
            tags: Vec::new(alloc),
            accesses: Vec::new(alloc),
        }
    }

    /// With room for what so many records do, if at most half of them are accesses. It grows where there are more.
    pub fn with_room(alloc: Global, room: usize) -> Result<TaggedEffects, Memory>
        ensures { IfOk result (λ tagged. KeepsNone tagged) }
    {
        let tags = Vec::with_capacity(alloc, room)?;
        let accesses = Vec::with_capacity(alloc, room / 2)?;
        Ok(TaggedEffects { tags, accesses })
    }

    /// Puts what one record more does behind the others, with so many parts.
    pub fn push(&mut self, effect: MemoryEffect, parts: u16) -> Result<(), Memory>
        requires some { 0 < parts }
        requires few { parts ≤ 16 }
        requires inside { IsInside effect.want }
        ensures { OnOk result ((did : List EffectData) → AreKept parts did self.old → AreKept parts (did ++ effect ∷ []) self.new) }
    {
        let tag = tag_of(effect.want(), parts);
        self.tags.push(tag)?;
        if tag == 0 {
            return Ok(());
        }
        self.accesses.push(effect)?;
        Ok(())
    }
}
