//! The calls of the network alone: a hop, a loss, a switch that dies.
ghost use Rattle.std.specs.Prelude.{◌≡◌, ◌*◌, ◌<◌, length};
ghost use Rattle.sn_model.specs.NetEvents.{step_of_hop, step_of_loss, step_of_kill};
ghost use Rattle.sn_fabric.specs.Fabric.{IsAfter, IsNetOf};
ghost use Rattle.sn_fabric.specs.Nets.{hop_as, loss_as, kill_as};

use crate::Fabric;
use sn_base::{Answer, MsgId, SwitchId};
use switch_net::{HopAnswer, Net};

pub fn hop_answer(answer: HopAnswer) -> Answer
    ensures { result ≡ hop_as answer }
{
    match answer {
        HopAnswer::Hopped => Answer::Hopped,
        HopAnswer::LostInDead => Answer::LostInDead,
        HopAnswer::Arrived => Answer::Arrived,
        HopAnswer::NoMessage => Answer::NoMessage,
    }
}

fn loss_answer(found: bool) -> Answer
    ensures { result ≡ loss_as found }
{
    if found {
        Answer::Lost
    } else {
        Answer::NoMessage
    }
}

fn kill_answer(killed: bool) -> Answer
    ensures { result ≡ kill_as killed }
{
    if killed {
        Answer::Killed
    } else {
        Answer::AlreadyDead
    }
}

impl Fabric {
    /// The network. Contracts see it in the words of its own layer.
    pub fn net(&self) -> &Net
        ensures { IsNetOf result.now self.now }
    {
        &self.net
    }

    /// Moves a message to its next switch.
    pub fn hop(&mut self, id: MsgId) -> Answer
        ensures { IsAfter self.old self.new result (step_of_hop self.old.fabric id) }
    {
        self.sent.clear();
        let answer = self.net.hop(id);
        hop_answer(answer)
    }

    /// Loses a message.
    pub fn lose(&mut self, id: MsgId) -> Answer
        ensures { IsAfter self.old self.new result (step_of_loss self.old.fabric id) }
    {
        self.sent.clear();
        let found = self.net.lose(id);
        loss_answer(found)
    }

    /// A switch dies, and the messages in it are lost.
    pub fn kill(&mut self, switch: SwitchId) -> Answer
        requires { switch < 2 * length self.old.fabric.nodes }
        ensures { IsAfter self.old self.new result (step_of_kill self.old.fabric switch) }
    {
        self.sent.clear();
        let killed = self.net.kill(switch);
        kill_answer(killed)
    }
}
