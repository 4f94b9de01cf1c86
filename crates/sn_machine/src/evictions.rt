//! An eviction, of which a core hears where its copy is lost.
ghost use Rattle.std.specs.Prelude.{◌≡◌, ◌<◌, length};
ghost use Rattle.sn_model.specs.Caches.{block_count};
ghost use Rattle.sn_model.specs.NodeEvents.{step_of_eviction};
ghost use Rattle.sn_model.specs.MachineEvents.{machine_step_with_news};
ghost use Rattle.sn_machine.specs.Parts.{state_of, IsWhole, Does};
ghost use Rattle.sn_machine.specs.Sound.{IsSound};

use crate::hardware::Hardware;
use crate::processor::unreserve;
use sn_base::{Answer, BlockNo, NodeId};

impl Hardware {
    /// A node's cache gives up a block.
    pub fn evict(&mut self, node: NodeId, block: BlockNo) -> Answer
        requires whole { IsWhole self.old }
        requires sound { IsSound (state_of self.old) }
        requires here { node < length self.old.fabric.fabric.nodes }
        ensures done { Does self.old self.new result (machine_step_with_news (state_of self.old) (step_of_eviction self.old.fabric.fabric node block)) }
        ensures low { block < block_count }
    {
        // For the prover alone: the block is one of memory's.
        let _number = block.number();
        self.is_carried = true;
        let answer = self.fabric.evict(node, block);
        let Answer::Evicted = answer else {
            return answer;
        };
        let processor = &mut self.processors[usize::from(node.number())];
        unreserve(&mut processor.core, block);
        answer
    }
}
