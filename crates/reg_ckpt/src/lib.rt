//! The register checkpoints of one node.
//!
//! At each edge of its clock a node keeps its core, under the number of the checkpoint that begins there. The layer
//! above sees the cores by their numbers, without gaps, from the recovery point that the node knows to its newest
//! checkpoint: at most five. A checkpoint keeps no reservation, since a recovery clears it. Only `new` and
//! `at` take memory.
//!
//! Source: register checkpoints of SafetyNet (Sorin, Martin, Hill, Wood, ISCA 2002).
#![tactic(auto)]

ghost use Rattle.std.specs.Prelude.{◌≡◌, ◌+◌, ◌-◌, ◌<◌, ◌≤◌, ◌^◌, [], ◌∷◌, ◌++◌, length, IfOk, Some};
ghost use Rattle.circular_buffer.specs.Buffer.{buffer};
ghost use Rattle.reg_ckpt.specs.Checkpoints.{Checkpoints, HasCheckpoint, IsWithin, next, core_at, without_reservation, freed_below, dropped_above};

use circular_buffer::HeapCircularBuffer;
use rv_core::CoreState;
use sn_base::{Interval, Memory};
use std::alloc::Global;
use std::marker::Model;

/// The checkpoints. Contracts see the number of the oldest, and the cores from there on.
#[derive(Drop)]
pub struct RegCheckpoints {
    first: Interval,
    cores: HeapCircularBuffer<CoreState>,
}

impl Model for RegCheckpoints {
    ghost use Rattle.std.specs.Prelude.{◌≡◌};
    ghost use Rattle.reg_ckpt.specs.Checkpoints.{Checkpoints, IsWithin};

    ghost Value = { Checkpoints };

    ghost view = { λ r. record { first = r.first; cores = r.cores.items } };

    ghost invariant = { λ r. IsWithin (record { first = r.first; cores = r.cores.items }) × (r.cores.capacity ≡ 5) };
}

fn without_reservation(core: CoreState) -> CoreState
    ensures { result ≡ without_reservation core }
{
    let mut kept = core;
    kept.reservation = None;
    kept
}

fn append<T: Copy>(items: &mut HeapCircularBuffer<T>, item: T)
    requires { length items.old.items < items.old.capacity }
    ensures { items.new ≡ buffer (items.old.items ++ item ∷ []) items.old.capacity }
{
    let _ = items.push_back(item);
}

impl RegCheckpoints {
    /// Checkpoint 0 alone.
    pub fn new(alloc: Global, first: CoreState) -> Result<RegCheckpoints, Memory>
        ensures { IfOk result (λ r. r ≡ record { first = 0; cores = without_reservation first ∷ [] }) }
    {
        RegCheckpoints::at(alloc, 0, first)
    }

    /// Checkpoint k alone, from which a machine goes on.
    pub fn at(alloc: Global, k: Interval, first: CoreState) -> Result<RegCheckpoints, Memory>
        ensures { IfOk result (λ r. r ≡ record { first = k; cores = without_reservation first ∷ [] }) }
    {
        let mut cores = HeapCircularBuffer::with_capacity(alloc, 5)?;
        append(&mut cores, without_reservation(first));
        Ok(RegCheckpoints { first: k, cores })
    }

    /// Keeps a core as the next checkpoint.
    pub fn take(&mut self, k: Interval, core: CoreState)
        requires number { k ≡ next self.old }
        requires few { length self.old.cores < 5 }
        ensures { self.new ≡ record self.old { cores = self.old.cores ++ without_reservation core ∷ [] } }
    {
        // For the contract alone, which says that the caller's number is the next.
        let _number = k;
        append(&mut self.cores, without_reservation(core));
    }

    pub fn get(&self, k: Interval) -> &CoreState
        requires { HasCheckpoint self.now k }
        ensures core { core_at self.now k ≡ Some result.now }
        ensures good { IsWithin self.now }
    {
        let place = (k - self.first) as usize;
        self.cores.get(place).unwrap()
    }

    /// Drops the checkpoints below k, once no recovery goes back below checkpoint k.
    pub fn free_below(&mut self, k: Interval)
        requires { k < next self.old }
        ensures { self.new ≡ freed_below self.old k }
    {
        if k <= self.first {
            return;
        }
        let freed = (k - self.first) as usize;
        let left = self.cores.len() - freed;
        self.cores.truncate_front(left);
        self.first = k;
    }

    /// Drops the checkpoints above k, which a recovery to checkpoint k undoes.
    pub fn drop_above(&mut self, k: Interval)
        requires { HasCheckpoint self.old k }
        ensures { self.new ≡ dropped_above self.old k }
    {
        let left = (k - self.first) as usize + 1;
        self.cores.truncate_back(left);
    }
}
