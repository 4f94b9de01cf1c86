//! The accesses of a node's core: whether its line serves one now, and what it comes to else; a load and a store.
ghost use Rattle.std.specs.Prelude.{◌≡◌, ◌+◌, ◌%◌, ◌<◌, ◌≤◌, ◌^◌, true, false, length, IsNone};
ghost use Rattle.sn_base.specs.Blocks.{ram_start, ram_size, bytes_of};
ghost use Rattle.rv_core.specs.Core.{block_of};
ghost use Rattle.sn_base.specs.declared.event.Answer.TheVariants.{Retired, Missed};
ghost use Rattle.sn_model.specs.Caches.{is_present, line_of};
ghost use Rattle.sn_model.specs.Access.{step_of_access, word_found, fabric_with_write, lacks_room};
ghost use Rattle.sn_model.specs.Fabric.{node_at, step_with_answer};
ghost use Rattle.sn_model.specs.FabricEvents.{Write};
ghost use Rattle.fabric_bounds.specs.Events.{CanWrite};
ghost use Rattle.mosi_cache.specs.Probe.{probe_by};
ghost use Rattle.sn_fabric.specs.Fabric.{IsAfter};
ghost use Rattle.sn_fabric.specs.Units.{access_answer};

use crate::node::NodeUnit;
use crate::sending::{lacks_room, post};
use crate::{Fabric, Need};
use mosi_cache::AccessProbe;
use sn_base::{Answer, BlockNo, NodeId, Write};

fn access_answer(probe: AccessProbe, is_net_full: bool) -> Answer
    ensures { result ≡ access_answer probe is_net_full }
{
    match probe {
        AccessProbe::Ready => Answer::Retired,
        AccessProbe::Waits => Answer::Waits,
        AccessProbe::NeedsEvict => Answer::NeedsEvict,
        AccessProbe::LogFull => Answer::LogFull,
        AccessProbe::Miss if is_net_full => Answer::NetFull,
        AccessProbe::Miss => Answer::Missed,
    }
}

fn probe(unit: &NodeUnit, block: BlockNo, need: Need) -> AccessProbe
    requires { IsNone unit.now.cache.cache.miss }
    ensures { result ≡ probe_by unit.now.cache unit.now.log block unit.now.clock.interval need }
{
    let now = unit.clock.now();
    unit.cache.probe(block, need, now, &unit.log)
}

impl Fabric {
    /// The answer that `access` would give now.
    pub fn foresee_access(&self, node: NodeId, block: BlockNo, need: Need) -> Answer
        requires { node < length self.now.fabric.nodes }
        ensures { result ≡ (step_of_access self.now.config self.now.fabric node block need).answer }
    {
        if self.miss_open(node) {
            return Answer::Waits;
        }
        let is_net_full = lacks_room(&self.net, 1);
        let probe = probe(&self.units[usize::from(node.number())], block, need);
        access_answer(probe, is_net_full)
    }

    /// An access of a node's core to a block: it is served, and nothing changes; it misses, and a request goes to the home; or
    /// it is refused.
    pub fn access(&mut self, node: NodeId, block: BlockNo, need: Need) -> Answer
        requires here { node < length self.old.fabric.nodes }
        requires numbers { self.old.fabric.net.next_id ≤ 2 ^ 63 }
        ensures { IsAfter self.old self.new result (step_of_access self.old.config self.old.fabric node block need) }
    {
        let answer = self.foresee_access(node, block, need);
        match answer {
            Answer::Missed => self.begin_miss(node, block, need),
            _ => self.send_nothing(),
        }
        answer
    }

    fn begin_miss(&mut self, node: NodeId, block: BlockNo, need: Need)
        requires here { node < length self.old.fabric.nodes }
        requires numbers { self.old.fabric.net.next_id ≤ 2 ^ 63 }
        requires misses { (step_of_access self.old.config self.old.fabric node block need).answer ≡ Missed }
        ensures { IsAfter self.old self.new Missed (step_of_access self.old.config self.old.fabric node block need) }
    {
        // For the prover alone: the block is one of memory's.
        let _number = block.number();
        // For the prover alone: the network holds no more than its bound.
        let _count = self.net.count();
        self.sent.clear();
        let unit = &mut self.units[usize::from(node.number())];
        let now = unit.clock.now();
        let out = unit.cache.begin_miss(block, need, now);
        post(&mut self.net, &mut self.sent, node, now, block, &out);
    }

    /// The aligned word at a byte address of memory, whose block has a line at the node.
    pub fn load(&self, node: NodeId, address: u32) -> u32
        requires here { node < length self.now.fabric.nodes }
        requires low { ram_start ≤ address }
        requires high { address < ram_start + ram_size }
        requires line { is_present (line_of (node_at self.now.fabric node).cache (block_of address)).state ≡ true }
        ensures { result ≡ word_found self.now.fabric node address }
    {
        self.units[usize::from(node.number())].cache.load(address)
    }

    /// Writes into a line of the node that may be written: the old content is noted, once per interval, and the line is
    /// Modified.
    pub fn store(&mut self, node: NodeId, write: &Write)
        requires low { ram_start ≤ write.now.address }
        requires high { write.now.address < ram_start + ram_size }
        requires aligned { write.now.address % bytes_of write.now.width ≡ 0 }
        requires can { CanWrite self.old.fabric node write.now }
        requires room { lacks_room self.old.config (node_at self.old.fabric node) (block_of write.now.address) Need.Write ≡ false }
        ensures { IsAfter self.old self.new Retired (step_with_answer (fabric_with_write self.old.fabric node write.now) Retired) }
    {
        self.sent.clear();
        let unit = &mut self.units[usize::from(node.number())];
        let now = unit.clock.now();
        unit.cache.store(write, now, &mut unit.log);
    }
}
