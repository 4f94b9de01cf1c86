//! The records of the instructions that have retired.
//!
//! A record is pending until the checkpoint after its interval is validated, and committed from then on; a recovery
//! drops what is pending. The layer above sees the two lists: the committed one, in order of the intervals and within
//! one in order of retirement, only grows, and is the trace that a flat machine could have run. How many bytes of input
//! each node has taken follows from both. Only `reserve` takes memory.
#![tactic(auto)]

ghost use Rattle.std.specs.Prelude.{◌≡◌, ℕ, ◌+◌, ◌-◌, ◌<◌, ◌≤◌, ◌^◌, max, [], ◌∷◌, ◌++◌, length, slice_index, OnOk, OnErr};
ghost use Rattle.interval_list.specs.WaitingList.{entries_below, waiting_from};
ghost use Rattle.sn_history.specs.History.{HistoryData, taken_by};

mod reads;

use interval_list::{IntervalList, Waiting};
use reads::{forget_reads, note_read};
use rv_core::Record;
use sn_base::{Interval, Memory, NodeId};
use std::alloc::Global;
use std::marker::Model;

/// The records of a machine. Contracts see the pending and the committed ones, and how many more may be added.
#[derive(Drop)]
pub struct History {
    records: IntervalList<Record>,
    reads: [u32; 16],
}

impl Model for History {
    ghost use Rattle.std.specs.Prelude.{◌≡◌, ℕ, ◌+◌, ◌<◌, ◌^◌, length, slice_index};
    ghost use Rattle.sn_history.specs.History.{HistoryData, taken_by};

    ghost Value = { HistoryData };

    ghost view = { λ h. record { pending = h.records.waiting; committed = h.records.committed; room = h.records.room } };

    ghost invariant = { λ h.
        (length h.records.committed + length h.records.waiting + h.records.room < 2 ^ 32)
        × ((n : ℕ) → n < 16 → slice_index h.reads n
        ≡ taken_by (record { pending = h.records.waiting; committed = h.records.committed; room = h.records.room }) n) };
}

impl History {
    pub fn new(alloc: Global) -> History
        ensures { result ≡ record { pending = []; committed = []; room = 0 } }
    {
        History {
            records: IntervalList::new(alloc),
            reads: [0; 16],
        }
    }

    /// Makes room for so many records more. A history holds fewer than 2^32 records; where it would come to hold more
    /// it is out of memory.
    pub fn reserve(&mut self, records: usize) -> Result<(), Memory>
        ensures ok { OnOk result (self.new ≡ record self.old { room = max self.old.room records }) }
        ensures err { OnErr result (self.new ≡ self.old) }
    {
        if records <= self.records.spare() {
            return Ok(());
        }
        let held = self.records.committed().len() + self.records.waiting().len();
        if records > 0xffff_ffff - held {
            return Err(Memory);
        }
        self.records.reserve(records)
    }

    /// How many more records may be added.
    pub fn spare(&self) -> usize
        ensures { result ≡ self.now.room }
    {
        self.records.spare()
    }

    /// Adds the record of an instruction that retired in this interval.
    pub fn add(&mut self, interval: Interval, taken: Record)
        requires { 0 < self.old.room }
        ensures { self.new ≡ record self.old {
          pending = self.old.pending ++ record { interval = interval; entry = taken } ∷ [];
          room = self.old.room - 1;
        } }
    {
        note_read(&mut self.reads, &taken);
        self.records.add(interval, taken);
    }

    /// Commits the records of the intervals below k, once checkpoint k is validated.
    pub fn commit_below(&mut self, k: Interval)
        ensures { self.new ≡ record self.old {
          pending = waiting_from k self.old.pending;
          committed = self.old.committed ++ entries_below k self.old.pending;
        } }
    {
        self.records.commit_below(k);
    }

    /// Drops what is pending, which a recovery undoes.
    pub fn drop_pending(&mut self)
        ensures { self.new ≡ record self.old { pending = [] } }
    {
        forget_reads(self.records.waiting(), &mut self.reads);
        self.records.drop_from(0);
    }

    /// The records that a recovery would undo, in order of retirement.
    pub fn pending(&self) -> &[Waiting<Record>]
        ensures { result.now ≡ self.now.pending }
    {
        self.records.waiting()
    }

    pub fn committed(&self) -> &[Record]
        ensures { result.now ≡ self.now.committed }
    {
        self.records.committed()
    }

    /// How many bytes of its input the node has taken, in records that are committed or pending.
    pub fn taken(&self, node: NodeId) -> u32
        ensures { result ≡ taken_by self.now node }
    {
        self.reads[usize::from(node.number())]
    }
}
