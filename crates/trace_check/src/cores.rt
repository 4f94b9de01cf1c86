//! The cores' replays: each in a thread of its own, into a slot of its own.
ghost use Rattle.std.specs.Prelude.{◌≡◌, ℕ, ◌<◌, ◌≤◌, true, length, is_ok, slice_index_or, IfOk, OnOk};
ghost use Rattle.projection_places.specs.Passes.{Passes, CoresPass};
ghost use Rattle.rv_core.specs.Flat.{flat_start};
ghost use Rattle.trace_check.specs.Slots.{IsFresh, AreFresh, HasReplayed, AreReplayed};
ghost use Rattle.trace_check.specs.Tags.{KeepsNone};

use crate::core_replay::replay;
use crate::tagged_effects::TaggedEffects;
use rv_core::Record;
use sn_base::{Image, Memory, NodeId};
use sn_io::Gate;
use std::alloc::Global;
use std::thread::Threads;
use std::{mem, thread};

/// A core, how many records it passes, and what its own among them do.
#[derive(Drop)]
pub struct Slot {
    pub core: NodeId,
    pub tagged: TaggedEffects,
    pub passed: Result<usize, Memory>,
}

/// A slot for each core, with room for what so many records do. It grows where a core has more.
pub fn fresh_slots(alloc: Global, nodes: u8, room: usize) -> Result<Vec<Slot>, Memory>
    requires few { nodes ≤ 16 }
    ensures { IfOk result (λ slots. AreFresh nodes slots.items) }
{
    let mut slots = Vec::with_capacity(alloc, usize::from(nodes))?;
    'nodes: for number in 0..nodes {
        let slot = fresh_slot(alloc, number, room)?;
        slots.push(slot)?;
    }
    Ok(slots)
}

fn fresh_slot(alloc: Global, number: u8, room: usize) -> Result<Slot, Memory>
    requires { number < 16 }
    ensures { IfOk result (λ slot. IsFresh number slot) }
{
    let core = NodeId::new(number).unwrap();
    let tagged = TaggedEffects::with_room(alloc, room)?;
    Ok(Slot {
        core,
        tagged,
        passed: Ok(0),
    })
}

/// Replays each core's records in its slot, which keeps what they do for so many parts of the blocks.
pub fn replay_cores<T: Threads + Sync, G: Gate + Sync>(
    rt: &T,
    alloc: Global,
    image: &Image,
    nodes: u8,
    parts: u16,
    records: &[Record],
    gate: &G,
    slots: &mut [Slot],
)
    requires some { 0 < nodes }
    requires parts { 0 < parts }
    requires few { parts ≤ 16 }
    requires fresh { AreFresh nodes slots.old }
    ensures { AreReplayed image.now nodes parts records.now slots.new }
{
    thread::for_each_mut(
        rt,
        slots,
        usize::from(nodes),
        &|_, slot: &mut Slot|
            requires { (slot.old.core < nodes) × (0 < parts) × (parts ≤ 16) × KeepsNone slot.old.tagged }
            ensures { (slot.new.core ≡ slot.old.core) × HasReplayed image.entry.now nodes parts records.entry.now slot.new }
        { replay_slot(alloc, image, nodes, parts, records, gate, slot) },
    );
}

fn replay_slot<G: Gate>(
    alloc: Global,
    image: &Image,
    nodes: u8,
    parts: u16,
    records: &[Record],
    gate: &G,
    slot: &mut Slot,
)
    requires inside { slot.old.core < nodes }
    requires parts { 0 < parts }
    requires few { parts ≤ 16 }
    requires fresh { KeepsNone slot.old.tagged }
    ensures core { slot.new.core ≡ slot.old.core }
    ensures replayed { HasReplayed image.now nodes parts records.now slot.new }
{
    gate.before(u32::from(slot.core.number()), 1);
    // The slots lie side by side, and threads that write next to each other are slow: here each writes vectors of its own.
    let mut tagged = mem::replace(&mut slot.tagged, TaggedEffects::new(alloc));
    slot.passed = replay(image, nodes, slot.core, parts, records, &mut tagged);
    slot.tagged = tagged;
}

/// How many records, from the first on, all cores pass.
pub fn count_passed(
    image: &Image,
    nodes: u8,
    records: &[Record],
    slots: &[Slot],
) -> Result<usize, Memory>
    requires some { 1 ≤ nodes }
    requires replayed { (parts : ℕ) × AreReplayed image.now nodes parts records.now slots.now }
    ensures passed { IfOk result (λ p. Passes (CoresPass image.now nodes (flat_start image.now nodes) records.now) (length records.now) p) }
    ensures done { OnOk result ((n : ℕ) (d : Slot) → n < nodes → is_ok (slice_index_or slots.now n d).passed ≡ true) }
{
    let mut least = records.len();
    'slots: for place in 0..slots.len() {
        least = least.min(slots[place].passed?);
    }
    Ok(least)
}
