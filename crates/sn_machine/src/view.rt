//! What a machine shows of its recovery point.
ghost use Rattle.std.specs.Prelude.{◌≡◌, ◌+◌, ◌%◌, ◌<◌, ◌≤◌, length};
ghost use Rattle.sn_base.specs.Blocks.{ram_start, ram_size};
ghost use Rattle.rv_core.specs.Core.{bare};
ghost use Rattle.rv_core.specs.Flat.{core_at, word_at};
ghost use Rattle.rv_core.specs.Execution.{in_of};
ghost use Rattle.sn_fabric.specs.Home.{owner_of};
ghost use Rattle.sn_model.specs.Cuts.{names_at};
ghost use Rattle.sn_model.specs.Machine.{processor_at};
ghost use Rattle.sn_history.specs.History.{reads_of};
ghost use Rattle.sn_machine.specs.Machine.{flat_of};

use crate::machine::Machine;
use crate::steps::block_at;
use rv_core::{CoreState, Record};
use sn_base::{BlockNo, Interval, NodeId, Width};
use sn_model::Owner;
use std::marker::Model;

/// The cut at the recovery point, whether or not a recovery has just come. Contracts see the machine that it shows; what it
/// shows is the state of the flat machine after the committed trace.
#[derive(Drop)]
pub struct View<'a> {
    pub(crate) machine: &'a Machine,
}

impl<'a> Model for View<'a> {
    ghost use Rattle.sn_machine.specs.Machine.{MachineData};

    ghost Value = { MachineData };

    ghost view = { λ v. v.machine.now };
}

impl<'a> View<'a> {
    /// The recovery point: the last checkpoint that was validated, 0 at first.
    pub fn point(&self) -> Interval
        ensures { result ≡ self.now.state.fabric.point }
    {
        let machine = self.machine;
        machine.hardware.point()
    }

    /// A node's core as its register checkpoint at the recovery point keeps it: without a reservation.
    pub fn core(&self, node: NodeId) -> &'a CoreState
        requires { node < self.now.config.nodes }
        ensures { result.now ≡ bare (core_at (flat_of self.now) node) }
    {
        let machine = self.machine;
        let hardware = &machine.hardware;
        let point = hardware.point();
        hardware.processors[usize::from(node.number())]
            .checkpoints
            .get(point)
    }

    /// The word at an address of memory.
    pub fn word(&self, address: u32) -> u32
        requires low { ram_start ≤ address }
        requires high { address < ram_start + ram_size }
        requires aligned { address % 4 ≡ 0 }
        ensures { result ≡ word_at (flat_of self.now).memory address }
    {
        let machine = self.machine;
        let hardware = &machine.hardware;
        let content = hardware
            .fabric
            .block_at(block_at(address), hardware.point());
        content.load(BlockNo::offset(address), Width::Word)
    }

    /// Whom the home of a block names as its owner.
    pub fn owner(&self, block: BlockNo) -> Owner
        ensures { result ≡ owner_of (names_at self.now.state.fabric block self.now.state.fabric.point) }
    {
        let machine = self.machine;
        let hardware = &machine.hardware;
        hardware.fabric.owner_at(block, hardware.point())
    }

    /// The committed trace.
    pub fn committed(&self) -> &[Record]
        ensures { result.now ≡ self.now.state.committed }
    {
        let machine = self.machine;
        machine.hardware.history.committed()
    }

    /// The bytes that the committed trace put out.
    pub fn released(&self) -> &[u8]
        ensures { result.now ≡ self.now.state.released }
    {
        let machine = self.machine;
        machine.hardware.output.released()
    }

    /// The bytes of input that were given to a node, taken or not.
    pub fn given(&self, node: NodeId) -> &[u8]
        requires { node < self.now.config.nodes }
        ensures { result.now ≡ (processor_at self.now.state node).given }
    {
        let machine = self.machine;
        machine.hardware.processors[usize::from(node.number())]
            .input
            .given()
    }

    /// How many bytes of its input the node's records in the committed trace have read.
    pub fn taken(&self, node: NodeId) -> u32
        ensures { result ≡ length (in_of node self.now.state.committed) }
    {
        let machine = self.machine;
        let history = &machine.hardware.history;
        // No more than what is taken with the pending records too, whose count fits.
        let _most = history.taken(node);
        count_reads(history.committed(), node) as u32
    }
}

/// How many of these records are the node's and have a byte read.
fn count_reads(records: &[Record], node: NodeId) -> usize
    ensures { result ≡ reads_of node records.now }
{
    records
        .iter()
        .filter(|record| record.core == node && record.read.is_some())
        .count()
}
