//! What else can be asked of a machine, between two events.
ghost use Rattle.std.specs.Prelude.{◌≡◌, ℕ, ◌*◌, ◌<◌, ◌≤◌, true, false, length, map, IfSome, IsNone};
ghost use Rattle.route_plan.specs.Distances.{is_dead};
ghost use Rattle.sn_fabric.specs.Home.{owner_of};
ghost use Rattle.sn_model.specs.Caches.{block_count, line_of, no_line, is_present};
ghost use Rattle.sn_model.specs.Fabric.{node_at, home_of};
ghost use Rattle.sn_model.specs.Homes.{Itself};
ghost use Rattle.sn_model.specs.Machine.{processor_at};
ghost use Rattle.sn_model.specs.NodeEvents.{ready_of};
ghost use Rattle.sn_fabric.specs.Nets.{net_as};
ghost use Rattle.sn_machine.specs.Parts.{retirement_as, held_as};
ghost use Rattle.sn_machine.specs.Machine.{MachineData, next_of, flat_of};
ghost use Rattle.sn_machine.specs.Looks.{wanted_block, can_go_from, have_ended};

use crate::machine::Machine;
use crate::steps::block_at;
use interval_list::Waiting;
use log_buffer::LogBuffer;
use rv_core::{CoreState, Record, Want};
use sn_base::{Answer, Block, BlockNo, Event, Image, Interval, NodeId, NodeSet, SwitchId};
use sn_fabric::{Line, OpenMiss, OpenPut, Owner, Transaction};
use switch_net::Net;

/// The block that a core's next instruction wants.
fn wanted_block(core: &CoreState, image: &Image) -> Option<BlockNo>
    ensures { result ≡ wanted_block image.now core.now }
{
    if !core.is_running() {
        return None;
    }
    match core.want(image) {
        Want::Nothing | Want::Input => None,
        Want::Load(address) => Some(block_at(address)),
        Want::Store(address) => Some(block_at(address)),
        Want::Amo(address) => Some(block_at(address)),
        Want::Lr(address) => Some(block_at(address)),
        Want::Sc(address) => Some(block_at(address)),
    }
}

impl Machine {
    /// The network. Contracts see it in the words of its own layer.
    pub fn net(&self) -> &Net
        ensures nodes { result.now.routes.nodes ≡ self.now.config.nodes }
        ensures carried { net_as result.now ≡ self.now.state.fabric.net }
    {
        self.hardware.fabric.net()
    }

    /// The interval of a node.
    pub fn now(&self, node: NodeId) -> Interval
        requires { node < self.now.config.nodes }
        ensures { result ≡ (node_at self.now.state.fabric node).now }
    {
        self.hardware.fabric.now(node)
    }

    /// The recovery point that a node knows: the last one that it learned, or was started again from.
    pub fn known(&self, node: NodeId) -> Interval
        requires { node < self.now.config.nodes }
        ensures { result ≡ (node_at self.now.state.fabric node).known }
    {
        self.hardware.fabric.known(node)
    }

    /// The checkpoint that a report of the node would say now.
    pub fn ready(&self, node: NodeId) -> Interval
        requires { node < self.now.config.nodes }
        ensures { result ≡ ready_of self.now.state.fabric node }
    {
        self.hardware.fabric.ready(node)
    }

    /// A node's core as it runs.
    pub fn core(&self, node: NodeId) -> &CoreState
        requires { node < self.now.config.nodes }
        ensures { result.now ≡ (processor_at self.now.state node).core }
    {
        &self.hardware.processors[usize::from(node.number())].core
    }

    /// The line of a block in a node's cache. None where it has none.
    pub fn line(&self, node: NodeId, block: BlockNo) -> Option<Line>
        requires { node < self.now.config.nodes }
        ensures none { IsNone result → line_of (node_at self.now.state.fabric node).cache block ≡ no_line }
        ensures some { IfSome result
            (λ line. (line ≡ line_of (node_at self.now.state.fabric node).cache block) × (is_present line.state ≡ true)) }
    {
        self.hardware.fabric.line(node, block)
    }

    /// The open miss of a node, if there is one.
    pub fn miss(&self, node: NodeId) -> Option<OpenMiss>
        requires { node < self.now.config.nodes }
        ensures { result ≡ (node_at self.now.state.fabric node).cache.miss }
    {
        self.hardware.fabric.miss(node)
    }

    /// The open put of a node, if there is one.
    pub fn put(&self, node: NodeId) -> Option<OpenPut>
        requires { node < self.now.config.nodes }
        ensures { result ≡ (node_at self.now.state.fabric node).cache.put }
    {
        self.hardware.fabric.put(node)
    }

    /// The log of a node, of both its sides.
    pub fn log(&self, node: NodeId) -> &LogBuffer
        requires { node < self.now.config.nodes }
        ensures { result.now.entries ≡ (node_at self.now.state.fabric node).log }
    {
        self.hardware.fabric.log(node)
    }

    /// Whom the home of a block names as its owner now.
    pub fn owner(&self, block: BlockNo) -> Owner
        ensures { result ≡ owner_of (home_of self.now.state.fabric block).holder }
    {
        self.hardware.fabric.owner(block)
    }

    /// The content that the home of a block has, which it owns itself.
    pub fn home_content(&self, block: BlockNo) -> &Block
        requires { owner_of (home_of self.now.state.fabric block).holder ≡ Owner.Home }
        ensures { (home_of self.now.state.fabric block).holder ≡ Itself result.now }
    {
        self.hardware.fabric.home_content(block)
    }

    /// Which nodes the home of a block has as its sharers.
    pub fn sharers(&self, block: BlockNo) -> NodeSet
        ensures { result ≡ (home_of self.now.state.fabric block).sharers }
    {
        self.hardware.fabric.sharers(block)
    }

    /// The transaction that the home of a block has open on it, if there is one.
    pub fn transaction(&self, block: BlockNo) -> Option<Transaction>
        ensures { result ≡ (home_of self.now.state.fabric block).transaction }
    {
        self.hardware.fabric.transaction(block)
    }

    /// The records of the instructions that wait for the validation of their intervals, in order of retirement.
    pub fn pending(&self) -> &[Waiting<Record>]
        ensures { map retirement_as result.now ≡ self.now.state.pending }
    {
        self.hardware.history.pending()
    }

    /// The checkpoint that each node reported last, in order of the nodes.
    pub fn reported(&self) -> &[Interval]
        ensures { result.now ≡ self.now.state.reported }
    {
        self.hardware.controller.reported()
    }

    /// The bytes that wait for the validation of their intervals, in the order in which they were put out.
    pub fn held(&self) -> &[Waiting<u8>]
        ensures { map held_as result.now ≡ self.now.state.held }
    {
        self.hardware.output.held()
    }

    /// Whether a switch is dead.
    pub fn is_dead(&self, switch: SwitchId) -> bool
        requires { switch < 2 * self.now.config.nodes }
        ensures { result ≡ is_dead self.now.state.fabric.net.dead switch }
    {
        self.net().is_dead(switch)
    }

    /// Where a step of the node would be answered NeedsEvict: the least block of the set of the wanted block that an eviction
    /// would let go now, by a drop or a put. None where there is none, and where a step has another answer.
    pub fn least_line(&self, node: NodeId) -> Option<BlockNo>
        requires { node < self.now.config.nodes }
        ensures none { IsNone result → (next_of self.now (Event.Step node)).answer ≡ Answer.NeedsEvict
            → (b : ℕ) → b < block_count → can_go_from self.now node b ≡ false }
        ensures some { IfSome result (λ least. ((next_of self.now (Event.Step node)).answer ≡ Answer.NeedsEvict)
            × (can_go_from self.now node least ≡ true) × ((b : ℕ) → b < least → can_go_from self.now node b ≡ false)) }
    {
        let Answer::NeedsEvict = self.foresee(Event::Step(node)) else {
            return None;
        };
        let block = wanted_block(self.core(node), &self.image)?;
        self.hardware.fabric.least_line(node, block)
    }

    /// Whether all cores have ended at the recovery point.
    pub fn over(&self) -> bool
        ensures { result ≡ have_ended self.now.config.nodes (flat_of self.now) }
    {
        let view = self.recovered();
        'nodes: for number in 0..self.config.nodes {
            if view.core(NodeId::numbered(number)).is_running() {
                return false;
            }
        }
        true
    }
}
