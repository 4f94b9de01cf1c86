//! Messages on their way, and switches that die.
ghost use Rattle.std.specs.Prelude.{◌≡◌, ◌*◌, ◌<◌, length};
ghost use Rattle.sn_model.specs.Instructions.{machine_step_of};
ghost use Rattle.sn_model.specs.MachineEvents.{machine_step_with_news};
ghost use Rattle.sn_model.specs.NetEvents.{step_of_hop, step_of_loss, step_of_kill, step_of_delivery};
ghost use Rattle.sn_model.specs.NodeEvents.{step_of_report};
ghost use Rattle.sn_machine.specs.Parts.{state_of, IsWhole, HasRoom, Does};
ghost use Rattle.sn_machine.specs.Sound.{IsSound};

use crate::hardware::Hardware;
use crate::hearing::hear;
use sn_base::{Answer, MsgId, NodeId, SwitchId};

impl Hardware {
    pub fn hop(&mut self, id: MsgId) -> Answer
        requires whole { IsWhole self.old }
        ensures { Does self.old self.new result (machine_step_of (state_of self.old) (step_of_hop self.old.fabric.fabric id)) }
    {
        self.is_carried = true;
        self.fabric.hop(id)
    }

    pub fn lose(&mut self, id: MsgId) -> Answer
        requires whole { IsWhole self.old }
        ensures { Does self.old self.new result (machine_step_of (state_of self.old) (step_of_loss self.old.fabric.fabric id)) }
    {
        self.is_carried = true;
        self.fabric.lose(id)
    }

    pub fn kill(&mut self, switch: SwitchId) -> Answer
        requires whole { IsWhole self.old }
        requires here { switch < 2 * length self.old.fabric.fabric.nodes }
        ensures { Does self.old self.new result (machine_step_of (state_of self.old) (step_of_kill self.old.fabric.fabric switch)) }
    {
        self.is_carried = true;
        self.fabric.kill(switch)
    }

    /// A node tells the service controller up to which checkpoint it has completed everything.
    pub fn report(&mut self, node: NodeId) -> Answer
        requires whole { IsWhole self.old }
        requires sound { IsSound (state_of self.old) }
        requires here { node < length self.old.fabric.fabric.nodes }
        ensures { Does self.old self.new result (machine_step_of (state_of self.old) (step_of_report self.old.fabric.fabric node)) }
    {
        self.is_carried = true;
        self.fabric.report(node)
    }

    /// A message is taken by its receiver, and what the fabric tells of it is heard: a core keeps no reservation on a copy that
    /// is lost, the controller gets a report, and checkpoints below a recovery point are freed.
    pub fn deliver(&mut self, id: MsgId) -> Answer
        requires whole { IsWhole self.old }
        requires sound { IsSound (state_of self.old) }
        ensures { Does self.old self.new result (machine_step_with_news (state_of self.old) (step_of_delivery self.old.fabric.config self.old.fabric.fabric id)) }
    {
        self.is_carried = true;
        let delivery = self.fabric.deliver(id);
        if let Some(told) = &delivery.1 {
            hear(&mut self.processors, &mut self.controller, told);
        }
        delivery.0
    }
}
