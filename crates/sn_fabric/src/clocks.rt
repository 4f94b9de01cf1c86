//! A clock edge.
ghost use Rattle.std.specs.Prelude.{◌≡◌, ◌+◌, ◌<◌, ◌^◌, length};
ghost use Rattle.sn_model.specs.Fabric.{node_at};
ghost use Rattle.sn_model.specs.NodeEvents.{step_of_edge};
ghost use Rattle.sn_fabric.specs.Fabric.{IsAfter};
ghost use Rattle.sn_fabric.specs.Units as unit;

use crate::Fabric;
use ckpt_clock::Clock;
use sn_base::{Answer, NodeId};

fn tick(clock: &mut Clock) -> Answer
    requires { clock.old.interval + 1 < 2 ^ 32 }
    ensures answer { result ≡ unit.edge_answer clock.old }
    ensures clock { clock.new ≡ unit.clock_after_edge clock.old }
{
    match clock.edge() {
        Ok(begun) => Answer::Edged(begun),
        Err(_) => Answer::CheckpointsFull,
    }
}

impl Fabric {
    /// The next interval of a node begins.
    pub fn edge(&mut self, node: NodeId) -> Answer
        requires here { node < length self.old.fabric.nodes }
        requires numbers { (node_at self.old.fabric node).now + 1 < 2 ^ 32 }
        ensures { IsAfter self.old self.new result (step_of_edge self.old.fabric node) }
    {
        self.sent.clear();
        let unit = &mut self.units[usize::from(node.number())];
        tick(&mut unit.clock)
    }
}
