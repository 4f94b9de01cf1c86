//! A clock edge, with its register checkpoint.
ghost use Rattle.std.specs.Prelude.{◌≡◌, ◌<◌, ◌+◌, length};
ghost use Rattle.reg_ckpt.specs.Checkpoints.{next};
ghost use Rattle.sn_model.specs.NodeEvents.{step_of_edge};
ghost use Rattle.sn_model.specs.MachineEvents.{edges, with_checkpoint};
ghost use Rattle.sn_machine.specs.Parts.{state_of, processor_as, IsWhole, Does};
ghost use Rattle.sn_machine.specs.Sound.{IsSound};

use crate::hardware::Hardware;
use crate::processor::Processor;
use sn_base::{Answer, Interval, NodeId};

/// The core at an edge is the new checkpoint: without a reservation, which the core loses too.
fn take_checkpoint(processor: &mut Processor, k: Interval)
    requires number { k ≡ next processor.old.checkpoints }
    requires few { length processor.old.checkpoints.cores < 5 }
    ensures processor { processor_as processor.new ≡ with_checkpoint (processor_as processor.old) }
    ensures first { processor.new.checkpoints.first ≡ processor.old.checkpoints.first }
    ensures input { processor.new.input ≡ processor.old.input }
{
    processor.core.reservation = None;
    processor.checkpoints.take(k, processor.core);
}

impl Hardware {
    /// The next interval of a node begins.
    pub fn edge(&mut self, node: NodeId) -> Answer
        requires whole { IsWhole self.old }
        requires sound { IsSound (state_of self.old) }
        requires here { node < length self.old.fabric.fabric.nodes }
        ensures { Does self.old self.new result (edges (state_of self.old) node (step_of_edge self.old.fabric.fabric node)) }
    {
        self.is_carried = true;
        let answer = self.fabric.edge(node);
        let Answer::Edged(k) = answer else {
            return answer;
        };
        take_checkpoint(&mut self.processors[usize::from(node.number())], k);
        answer
    }
}
