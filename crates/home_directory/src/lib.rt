//! The home of one node: the directory of the blocks whose home it is, and what it does with each message about them.
//!
//! For each block the home keeps who owns it, its content in memory, which nodes share it, and the transaction that is
//! open on it; while one is open, further requests wait. The table of the protocol has a row for each message; each row is
//! one function here, in the table's order, and does what the definition of that row says, the note in the node's log
//! included. The layer above knows a home as the list of its entries and each call by these definitions. A home never looks
//! at caches or the network, never changes anything when it refuses, and takes memory only when it is made.
//!
//! Source: directory MOSI protocols (Sorin, Hill, Wood, "A Primer on Memory Consistency and Cache Coherence"), and
//! SafetyNet (Sorin, Martin, Hill, Wood, ISCA 2002).
#![tactic(auto)]

ghost use Rattle.std.specs.Prelude.{◌≡◌, ◌/◌, ◌%◌, ◌<◌, ◌≤◌, true, false, length, IfOk};
ghost use Rattle.sn_model.specs.Homes.{Itself};
ghost use Rattle.sn_model.specs.HomeRows.{home_row, noted_by_home};
ghost use Rattle.sn_model.specs.Receivers.{IsNoteInOrder};
ghost use Rattle.home_directory.specs.Home.{HomeData, IsHome, entry_of, with_entry, first_of, owner_of, least_open};
ghost use Rattle.home_directory.specs.Receipt.{Sent, look_of};
ghost use Rattle.home_directory.specs.Serving.{at_block, reply_of, is_over, verdict_for};

mod entry;
mod laws;
mod open;
mod receive;
mod restore;
mod rows;
mod start;
mod step;
#[cfg(test)]
mod tests;

use entry::DirectoryEntry;
pub use entry::Transaction;
pub use laws::{
    full_log_is_the_machines, least_open_is_the_machines, outcome_is_the_machines,
    restore_is_the_machines,
};
use log_buffer::LogBuffer;
use open::Open;
use sn_base::{Block, BlockNo, Image, Interval, Memory, NodeId, NodeSet};
pub use sn_model::{Look, Out, Owner};
use sn_model::{HomeMessage, HomeRow};
use sn_msg::Message;
use sparse_table::SparseTable;
use std::alloc::Global;
use std::marker::Model;
pub use step::HomeStep;
use touched_places::Touched;

/// The home of a node. Contracts see the node, the number of nodes, and the entries of its blocks in order. The open
/// transactions stand in a list too, which has room for one of each block. An entry that isn't touched is as a recovery leaves it.
/// Entries are written where the program gives their blocks bytes, and else when a message first comes about a block near by.
#[derive(Drop)]
pub struct Home {
    node: NodeId,
    nodes: u8,
    entries: SparseTable<DirectoryEntry>,
    opens: Vec<Open>,
    touched: Touched,
}

impl Model for Home {
    ghost use Rattle.std.specs.Prelude.{◌≡◌, ◌≤◌, length, vec_capacity};
    ghost use Rattle.home_directory.specs.Home.{HomeData, IsHome};
    ghost use Rattle.home_directory.specs.Open.{opens_from};
    ghost use Rattle.home_directory.specs.Touched.{AreCleared};

    ghost Value = { HomeData };

    ghost view = { λ h. record { node = h.node; nodes = h.nodes; entries = h.entries } };

    ghost invariant = { λ h. IsHome (record { node = h.node; nodes = h.nodes; entries = h.entries })
        × (h.opens.items ≡ opens_from 0 h.entries) × (length h.entries ≤ vec_capacity h.opens)
        × AreCleared h.touched h.entries };
}

impl Home {
    /// The home of a node of so many, at the start: it owns its blocks, with the bytes that the program gives them. It
    /// takes memory for an entry of each of its blocks, and for the lists of open transactions and of touched entries.
    pub fn new(alloc: Global, node: NodeId, nodes: u8, image: &Image) -> Result<Home, Memory>
        requires inside { node < nodes }
        requires few { nodes ≤ 16 }
        ensures { IfOk result (λ h. h ≡ first_of image.now node nodes) }
    {
        let entries = start::first_entries(alloc, node, nodes, image)?;
        let opens = Vec::with_capacity(alloc, entries.len())?;
        let touched = Touched::new(alloc, entries.len())?;
        Ok(Home {
            node,
            nodes,
            entries,
            opens,
            touched,
        })
    }

    fn place(&self, block: BlockNo) -> usize
        requires { block % self.now.nodes ≡ self.now.node }
        ensures place { result ≡ block / self.now.nodes }
        ensures inside { result < length self.now.entries }
    {
        usize::from(block.number() / u16::from(self.nodes))
    }

    /// Does the row of a message that needn't wait. The log has room for what it notes.
    pub fn carry_out(
        &mut self,
        row: &HomeRow,
        message: &Message,
        now: Interval,
        log: &mut LogBuffer,
    ) -> HomeStep
        requires here { message.now.block % self.old.nodes ≡ self.old.node }
        requires latest { IsNoteInOrder log.old.entries true message.now.block
            (noted_by_home (entry_of self.old message.now.block) now message.now.tag row.now) }
        requires room { is_over log.old (reply_of self.old log.old now message.now row.now) ≡ false }
        ensures home { self.new ≡ with_entry self.old message.now.block (reply_of self.old log.old now message.now row.now).after.entry }
        ensures log { log.new ≡ record log.old { entries = (reply_of self.old log.old now message.now row.now).after.log } }
        ensures sent { Sent result (reply_of self.old log.old now message.now row.now).sends }
    {
        let place = self.place(message.block);
        self.touched.touch(place);
        let entry = self.entries.at_mut(place);
        let step = receive::do_row(entry, message, row, now, log);
        let begun = entry.begun();
        open::relist(&mut self.opens, place, begun);
        step
    }

    /// The row of what comes to the home, and what would be done with it now: the same refusal as `receive`'s, or how many
    /// messages it would send.
    pub fn look_at(
        &self,
        message: &Message,
        asked: &HomeMessage,
        now: Interval,
        log: &LogBuffer,
    ) -> (HomeRow, Look)
        requires { message.now.block % self.now.nodes ≡ self.now.node }
        ensures row { result.0 ≡ home_row (entry_of self.now message.now.block) message.now.from asked.now }
        ensures look { result.1 ≡ look_of (verdict_for log.now.limit (at_block self.now log.now message.now.block) now message.now asked.now) }
    {
        let place = self.place(message.block);
        receive::look_at(self.entries.at(place), message, asked, now, log)
    }

    /// Who owns a block of this home.
    pub fn owner(&self, block: BlockNo) -> Owner
        requires { block % self.now.nodes ≡ self.now.node }
        ensures { result ≡ owner_of (entry_of self.now block).holder }
    {
        let place = self.place(block);
        self.entries.at(place).owner
    }

    /// The content of a block that the home itself owns.
    pub fn content(&self, block: BlockNo) -> &Block
        requires here { block % self.now.nodes ≡ self.now.node }
        requires owned { owner_of (entry_of self.now block).holder ≡ Owner.Home }
        ensures { (entry_of self.now block).holder ≡ Itself result.now }
    {
        let place = self.place(block);
        &self.entries.at(place).memory
    }

    /// Which nodes share a block of this home.
    pub fn sharers(&self, block: BlockNo) -> NodeSet
        requires { block % self.now.nodes ≡ self.now.node }
        ensures { result ≡ (entry_of self.now block).sharers }
    {
        let place = self.place(block);
        self.entries.at(place).sharers
    }

    /// The transaction that is open on a block of this home, if there is one.
    pub fn transaction(&self, block: BlockNo) -> Option<Transaction>
        requires { block % self.now.nodes ≡ self.now.node }
        ensures { result ≡ (entry_of self.now block).transaction }
    {
        let place = self.place(block);
        self.entries.at(place).transaction
    }

    /// The least interval in which one of the open transactions was begun. None where none is open.
    pub fn least_open(&self) -> Option<Interval>
        ensures { result ≡ least_open self.now.entries }
    {
        open::least(self.opens.as_slice())
    }
}
