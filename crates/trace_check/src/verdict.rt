//! The verdict on a trace.
ghost use Rattle.std.specs.Prelude.{◌≡◌, ℕ, ◌+◌, ◌≤◌, ◌↔◌, Err, length, IfOk, IsOk};
ghost use Rattle.rv_core.specs.Flat.{flat_start};
ghost use Rattle.rv_core.specs.Execution.{IsExecution};
ghost use Rattle.sn_consistency.specs.Projections.{FirstWithoutStep};
ghost use Rattle.trace_check.specs.Slots.{AreFresh};
ghost use Rattle.trace_check.specs.Verdict.{IsDecided, IsReplayedTo};
ghost use Rattle.trace_check.specs.declared.verdict.CheckFault.TheVariants.{NotLegal};

use crate::cores::{Slot, count_passed, fresh_slots, replay_cores};
use crate::parts::{part_count, replay_blocks};
use rv_core::Record;
use sn_base::{Image, Memory};
use sn_io::Gate;
use std::alloc::Global;
use std::thread::Threads;

/// Why a trace isn't found to be an execution.
#[derive(Clone, Copy, PartialEq, Eq, Debug)]
pub enum CheckFault {
    /// The place, counted from 1, of the first record that is no step of the flat machine after those before it.
    NotLegal(u64),
    /// Memory was wanted and not given. It says nothing of the trace.
    Memory,
}

/// Judges the records as a trace of the program on 1 to 16 nodes. For each core `gate.before(core, 1)` is called before
/// its records are replayed.
pub fn check<T: Threads + Sync, G: Gate + Sync>(
    rt: &T,
    alloc: Global,
    image: &Image,
    nodes: u8,
    records: &[Record],
    gate: &G,
) -> Result<(), CheckFault>
    requires some { 1 ≤ nodes }
    requires few { nodes ≤ 16 }
    ensures legal { IsDecided result → IsOk result ↔ IsExecution image.now nodes records.now }
    ensures refused { (place : ℕ) → IsDecided result →
        (result ≡ Err (NotLegal (place + 1))) ↔ FirstWithoutStep image.now (flat_start image.now nodes) records.now place }
{
    let Ok(done) = count_done(rt, alloc, image, nodes, records, gate) else {
        return Err(CheckFault::Memory);
    };
    if done == records.len() {
        return Ok(());
    }
    Err(CheckFault::NotLegal(done as u64 + 1))
}

/// How many records, from the first on, the flat machine does.
fn count_done<T: Threads + Sync, G: Gate + Sync>(
    rt: &T,
    alloc: Global,
    image: &Image,
    nodes: u8,
    records: &[Record],
    gate: &G,
) -> Result<usize, Memory>
    requires some { 1 ≤ nodes }
    requires few { nodes ≤ 16 }
    ensures { IfOk result (λ done. IsReplayedTo image.now nodes records.now done) }
{
    // To count each core's records would be a walk over all of them in one thread. Room that isn't used takes no memory.
    let even = records.len() / usize::from(nodes);
    let mut slots = fresh_slots(alloc, nodes, even.saturating_add(even / 8))?;
    count_in_slots(rt, alloc, image, nodes, records, gate, slots.as_mut_slice())
}

/// The same with a slot for each core.
fn count_in_slots<T: Threads + Sync, G: Gate + Sync>(
    rt: &T,
    alloc: Global,
    image: &Image,
    nodes: u8,
    records: &[Record],
    gate: &G,
    slots: &mut [Slot],
) -> Result<usize, Memory>
    requires some { 1 ≤ nodes }
    requires fresh { AreFresh nodes slots.old }
    ensures { IfOk result (λ done. IsReplayedTo image.now nodes records.now done) }
{
    let parts = part_count(rt);
    replay_cores(rt, alloc, image, nodes, parts, records, gate, slots);
    let passed = count_passed(image, nodes, records, slots)?;
    replay_blocks(rt, alloc, image, parts, records, passed, slots)
}
