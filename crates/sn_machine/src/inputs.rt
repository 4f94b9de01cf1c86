//! Input that comes from outside.
ghost use Rattle.std.specs.Prelude.{◌≡◌, ◌<◌, length};
ghost use Rattle.sn_model.specs.MachineEvents.{step_of_input};
ghost use Rattle.sn_machine.specs.Parts.{state_of, IsWhole, HasRoom, Does};

use crate::hardware::Hardware;
use sn_base::{Answer, NodeId};

impl Hardware {
    /// A node is given a byte, for good.
    pub fn give(&mut self, node: NodeId, byte: u8) -> Answer
        requires whole { IsWhole self.old }
        requires here { node < length self.old.fabric.fabric.nodes }
        requires room { HasRoom 1 self.old }
        ensures { Does self.old self.new result (step_of_input (state_of self.old) node byte) }
    {
        let processor = &mut self.processors[usize::from(node.number())];
        processor.input.give(byte);
        self.is_carried = false;
        Answer::Given
    }
}
