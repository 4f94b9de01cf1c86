//! What is said of the first access that isn't legal.
ghost use Rattle.std.specs.Prelude.{◌≡◌, ℕ, ◌+◌, ◌<◌, ◌≤◌, ◌↔◌, All, IsTrue, List, length, take, true};
ghost use Rattle.sn_base.specs.Blocks.{bytes_of};
ghost use Rattle.access_check.specs.Accesses.{IsFittingAccess};
ghost use Rattle.access_check.specs.Legal.{MemoryState, IsFirstRefused, memory_after_all, writes_to};
ghost use Rattle.access_check.specs.Blocks.{IsWide, Shows};
ghost use Rattle.access_check.specs.Verdicts.{IsRefusal, IsCause, IsLast, writes_into, ends_reservation};

use crate::access::Access;
use crate::blocks::Blocks;
use crate::verdict::{Cause, Refusal};
use sn_base::{BlockNo, NodeId, Width};

/// The refusal of the access at a place, counted from 0, to blocks that have what those before it leave.
pub fn refusal_at(blocks: &Blocks, accesses: &[Access], place: usize) -> Refusal
    requires wide { IsWide blocks.now }
    requires fits { All IsFittingAccess accesses.now }
    requires within { place < length accesses.now }
    ensures { (m : MemoryState) → Shows blocks.now (memory_after_all m (take place accesses.now)) → IsFirstRefused m accesses.now place →
        IsRefusal m accesses.now result }
{
    let access = accesses[place];
    let before = &accesses[..place];
    let cause = if access.operation.seen().is_some() {
        Cause::Value {
            width: access.width,
            expected: blocks.value(&access),
            since: last_write(before, &access),
        }
    } else {
        Cause::Unreserved {
            since: last_end(before, access.core, access.block()),
        }
    };
    Refusal {
        place: place as u64 + 1,
        cause,
    }
}

/// The place of the last write of a byte that the access is about, counted from 1; 0 where there is none.
fn last_write(before: &[Access], access: &Access) -> u64
    ensures { IsLast (writes_into access.now) before.now result }
{
    let mut last = 0;
    'earlier: for place in 0..before.len() {
        if writes_into(access, &before[place]) {
            last = place as u64 + 1;
        }
    }
    last
}

/// The place of the last access that ended a reservation of the block by the core, or would have, counted from 1; 0 where
/// there is none.
fn last_end(before: &[Access], core: NodeId, block: BlockNo) -> u64
    requires { All IsFittingAccess before.now }
    ensures { IsLast (ends_reservation core block) before.now result }
{
    let mut last = 0;
    'earlier: for place in 0..before.len() {
        if ends_reservation(core, block, &before[place]) {
            last = place as u64 + 1;
        }
    }
    last
}

fn bytes_of(width: Width) -> u64
    ensures { result ≡ bytes_of width }
{
    match width {
        Width::Byte => 1,
        Width::Half => 2,
        Width::Word => 4,
    }
}

fn writes_into(access: &Access, earlier: &Access) -> bool
    ensures { result ≡ writes_into access.now earlier.now }
{
    let (from, other) = (u64::from(access.address), u64::from(earlier.address));
    earlier.operation.written().is_some()
        && other < from + bytes_of(access.width)
        && from < other + bytes_of(earlier.width)
}

fn ends_reservation(core: NodeId, block: BlockNo, earlier: &Access) -> bool
    requires { IsFittingAccess earlier.now }
    ensures { result ≡ ends_reservation core block earlier.now }
{
    let is_same = earlier.block() == block;
    let operation = earlier.operation;
    if earlier.core == core {
        return operation.is_sc() || (operation.is_lr() && !is_same);
    }
    operation.written().is_some() && is_same
}
