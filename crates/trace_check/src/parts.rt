//! The parts of the blocks, side by side.
ghost use Rattle.std.specs.Prelude.{◌≡◌, ℕ, ◌<◌, ◌≤◌, length, slice_index_or, IfOk, Result};
ghost use Rattle.sn_base.specs.declared.memory.Memory.{Memory};
ghost use Rattle.rv_core.specs.Flat.{flat_start};
ghost use Rattle.projection_places.specs.Passes.{Passes, BlocksPass};
ghost use Rattle.trace_check.specs.Parts.{AreFitting, HasPassed};
ghost use Rattle.trace_check.specs.Slots.{HasSlots, HasEffects};

use crate::blocks::replay_part;
use crate::cores::Slot;
use crate::tag::Part;
use rayon::current_num_threads;
use rayon::prelude::*;
use rv_core::Record;
use sn_base::{Image, Memory};
use std::alloc::Global;
use std::thread::Threads;

/// How many parts there are.
pub fn part_count<T: Threads>(rt: &T) -> u16
    ensures some { 0 < result }
    ensures few { result ≤ 16 }
{
    // Each part walks over all records, so more parts than processors would only take longer.
    current_num_threads(rt).min(16) as u16
}

/// How many of the first records all blocks pass. The slots have what these do, for so many parts.
pub fn replay_blocks<T: Threads + Sync>(
    rt: &T,
    alloc: Global,
    image: &Image,
    parts: u16,
    records: &[Record],
    count: usize,
    slots: &[Slot],
) -> Result<usize, Memory>
    requires some { 0 < parts }
    requires few { parts ≤ 16 }
    requires within { count ≤ length records.now }
    requires room { HasSlots slots.now records.now count }
    requires fits { AreFitting records.now count slots.now }
    ensures { IfOk result (λ p. (nodes : ℕ) → HasEffects image.now nodes parts records.now count slots.now →
        Passes (BlocksPass image.now (flat_start image.now nodes) records.now) count p) }
{
    let parts = usize::from(parts);
    let mut passed: [Result<usize, Memory>; 16] = [Ok(0); 16];
    replay_parts(
        rt,
        alloc,
        image,
        records,
        count,
        slots,
        &mut passed[..parts],
    );
    least_of(image, records, count, slots, &passed[..parts])
}

/// Each place of `passed` is a part's.
fn replay_parts<T: Threads + Sync>(
    rt: &T,
    alloc: Global,
    image: &Image,
    records: &[Record],
    count: usize,
    slots: &[Slot],
    passed: &mut [Result<usize, Memory>],
)
    requires some { 0 < length passed.old }
    requires few { length passed.old ≤ 16 }
    requires within { count ≤ length records.now }
    requires room { HasSlots slots.now records.now count }
    requires fits { AreFitting records.now count slots.now }
    ensures size { length passed.new ≡ length passed.old }
    ensures each { (part : ℕ) (d : Result ℕ Memory) → part < length passed.old →
        HasPassed image.now (length passed.old) part records.now count slots.now (slice_index_or passed.new part d) }
{
    let parts = passed.len() as u16;
    par_for_each_mut(
        rt,
        passed,
        |number: usize, passed: &mut Result<usize, Memory>|
            requires { (number < 16) × (0 < parts) × (count ≤ length records.now) × HasSlots slots.now records.now count ×
                AreFitting records.now count slots.now }
            ensures { HasPassed image.entry.now parts number records.entry.now count slots.entry.now passed.new }
        {
            let part = Part {
                count: parts,
                number: number as u16,
            };
            *passed = replay_part(alloc, image, part, records, count, slots);
        },
    );
}

/// The least number of all parts.
fn least_of(
    image: &Image,
    records: &[Record],
    count: usize,
    slots: &[Slot],
    passed: &[Result<usize, Memory>],
) -> Result<usize, Memory>
    requires some { 0 < length passed.now }
    requires each { (part : ℕ) (d : Result ℕ Memory) → part < length passed.now →
        HasPassed image.now (length passed.now) part records.now count slots.now (slice_index_or passed.now part d) }
    ensures { IfOk result (λ p. (nodes : ℕ) → HasEffects image.now nodes (length passed.now) records.now count slots.now →
        Passes (BlocksPass image.now (flat_start image.now nodes) records.now) count p) }
{
    let mut least = count;
    'parts: for part in 0..passed.len() {
        least = least.min(passed[part]?);
    }
    Ok(least)
}
