//! The accesses to the blocks of one part, replayed by themselves.
ghost use Rattle.std.specs.Prelude.{◌≡◌, ◌<◌, ◌≤◌, true, [], length, IfOk};
ghost use Rattle.rv_core.specs.Core.{is_access};
ghost use Rattle.trace_check.specs.CellPlaces.{IsWide, IsReplay};
ghost use Rattle.trace_check.specs.Parts.{IsFitting, AreFitting, HasPassed};
ghost use Rattle.trace_check.specs.Slots.{HasSlots};

use crate::cells::Cells;
use crate::cores::Slot;
use crate::memory_effect::MemoryEffect;
use crate::tag::{Part, accesses, block_in, is_of};
use rv_core::Record;
use sn_base::{Image, Memory};
use std::alloc::Global;

/// How many of the first records the blocks of the part pass. The slots have what these do.
pub fn replay_part(
    alloc: Global,
    image: &Image,
    part: Part,
    records: &[Record],
    count: usize,
    slots: &[Slot],
) -> Result<usize, Memory>
    requires some { 0 < part.count }
    requires within { count ≤ length records.now }
    requires room { HasSlots slots.now records.now count }
    requires fits { AreFitting records.now count slots.now }
    ensures { HasPassed image.now part.count part.number records.now count slots.now result }
{
    let mut cells = Cells::new(alloc)?;
    replay_tagged(image, part, records, count, slots, &mut cells)
}

/// The same with cells, of which none was made.
fn replay_tagged(
    image: &Image,
    part: Part,
    records: &[Record],
    count: usize,
    slots: &[Slot],
    cells: &mut Cells,
) -> Result<usize, Memory>
    requires some { 0 < part.count }
    requires within { count ≤ length records.now }
    requires room { HasSlots slots.now records.now count }
    requires fits { AreFitting records.now count slots.now }
    requires wide { IsWide cells.old }
    requires none { cells.old.kept.items ≡ [] }
    ensures { HasPassed image.now part.count part.number records.now count slots.now result }
{
    let mut own = [0usize; 16];
    let mut next = [0usize; 16];
    'records: for place in 0..count {
        let taken = records[place];
        let core = usize::from(taken.core.number());
        let tagged = &slots[core].tagged;
        let tag = tagged.tags[own[core]];
        if is_of(tag, part) && !replay_access(image, cells, &tagged.accesses[next[core]], &taken)? {
            return Ok(place);
        }
        own[core] += 1;
        next[core] += accesses(tag);
    }
    Ok(count)
}

/// Whether an access finds what the earlier ones left. If so, it is done.
fn replay_access(
    image: &Image,
    cells: &mut Cells,
    effect: &MemoryEffect,
    taken: &Record,
) -> Result<bool, Memory>
    requires wide { IsWide cells.old }
    requires access { is_access effect.now.want ≡ true }
    requires fits { IsFitting effect.now taken.now }
    ensures wide { IsWide cells.new }
    ensures done { IfOk result (λ found. IsReplay image.now cells.old effect.now taken.now found cells.new) }
{
    let block = block_in(effect.want()).unwrap();
    cells.replay(image, block, effect, taken)
}
