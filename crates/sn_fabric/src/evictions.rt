//! An eviction.
ghost use Rattle.std.specs.Prelude.{◌≡◌, ℕ, ◌<◌, ◌≤◌, ◌^◌, true, false, length, IfSome, IsNone};
ghost use Rattle.sn_base.specs.declared.event.Answer.TheVariants.{Evicted, PutBegun};
ghost use Rattle.sn_model.specs.NodeEvents.{step_of_eviction};
ghost use Rattle.sn_fabric.specs.Fabric.{IsAfter};
ghost use Rattle.sn_model.specs.Caches.{block_count};
ghost use Rattle.sn_fabric.specs.Fabric.{can_go};
ghost use Rattle.sn_fabric.specs.Units.{evict_answer};

use crate::Fabric;
use crate::sending::{lacks_room, post};
use sn_base::{Answer, BlockNo, NodeId};

fn evict_answer(answer: Answer, is_net_full: bool) -> Answer
    ensures { result ≡ evict_answer answer is_net_full }
{
    match answer {
        Answer::PutBegun if is_net_full => Answer::NetFull,
        _ => answer,
    }
}

impl Fabric {
    /// The answer that `evict` would give now.
    pub(super) fn foresee_evict(&self, node: NodeId, block: BlockNo) -> Answer
        requires { node < length self.now.fabric.nodes }
        ensures { result ≡ (step_of_eviction self.now.fabric node block).answer }
    {
        let is_net_full = lacks_room(&self.net, 1);
        let unit = &self.units[usize::from(node.number())];
        let answer = unit.cache.evict_answer(block);
        evict_answer(answer, is_net_full)
    }

    /// A node's cache gives up a block: a Shared copy is dropped at once; of what it owns the home is asked first.
    pub fn evict(&mut self, node: NodeId, block: BlockNo) -> Answer
        requires here { node < length self.old.fabric.nodes }
        requires numbers { self.old.fabric.net.next_id ≤ 2 ^ 63 }
        ensures { IsAfter self.old self.new result (step_of_eviction self.old.fabric node block) }
    {
        let answer = self.foresee_evict(node, block);
        match answer {
            Answer::Evicted => self.drop_shared(node, block),
            Answer::PutBegun => self.begin_put(node, block),
            _ => self.send_nothing(),
        }
        answer
    }

    fn drop_shared(&mut self, node: NodeId, block: BlockNo)
        requires here { node < length self.old.fabric.nodes }
        requires drops { (step_of_eviction self.old.fabric node block).answer ≡ Evicted }
        ensures { IsAfter self.old self.new Evicted (step_of_eviction self.old.fabric node block) }
    {
        // For the prover alone: the block is one of memory's.
        let _number = block.number();
        self.sent.clear();
        let unit = &mut self.units[usize::from(node.number())];
        unit.cache.drop_shared(block);
    }

    fn begin_put(&mut self, node: NodeId, block: BlockNo)
        requires here { node < length self.old.fabric.nodes }
        requires numbers { self.old.fabric.net.next_id ≤ 2 ^ 63 }
        requires puts { (step_of_eviction self.old.fabric node block).answer ≡ PutBegun }
        ensures { IsAfter self.old self.new PutBegun (step_of_eviction self.old.fabric node block) }
    {
        // For the prover alone: the block is one of memory's.
        let _number = block.number();
        // For the prover alone: the network holds no more than its bound.
        let _count = self.net.count();
        self.sent.clear();
        let unit = &mut self.units[usize::from(node.number())];
        let now = unit.clock.now();
        let out = unit.cache.begin_put(block, now);
        post(&mut self.net, &mut self.sent, node, now, block, &out);
    }

    /// The least block with a line in the set of a block that an eviction at the node would drop or put now. None where
    /// there is none.
    pub fn least_line(&self, node: NodeId, block: BlockNo) -> Option<BlockNo>
        requires { node < length self.now.fabric.nodes }
        ensures none { IsNone result → (b : ℕ) → b < block_count → can_go self.now.config self.now.fabric node block b ≡ false }
        ensures some { IfSome result
            (λ least. (can_go self.now.config self.now.fabric node block least ≡ true)
            × ((b : ℕ) → b < least → can_go self.now.config self.now.fabric node block b ≡ false)) }
    {
        let is_net_full = lacks_room(&self.net, 1);
        let unit = &self.units[usize::from(node.number())];
        unit.cache.least_line(block, !is_net_full)
    }
}
