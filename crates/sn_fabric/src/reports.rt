//! What a node has completed, and its report of that.
ghost use Rattle.std.specs.Prelude.{◌≡◌, ◌<◌, ◌≤◌, ◌^◌, false, length};
ghost use Rattle.sn_base.specs.declared.event.Answer.TheVariants.{Reported};
ghost use Rattle.mosi_cache.specs.Machine.{at_most};
ghost use Rattle.sn_model.specs.Net.{is_full};
ghost use Rattle.sn_model.specs.NodeEvents.{ready_of, step_of_report};
ghost use Rattle.sn_fabric.specs.Fabric.{IsAfter};

use crate::Fabric;
use crate::sending::{lacks_room, post};
use sn_base::{Answer, BlockNo, Interval, NodeId};
use sn_model::Out;
use sn_msg::Body;

fn at_most(now: Interval, begun: Option<Interval>) -> Interval
    ensures { result ≡ at_most now begun }
{
    match begun {
        Some(interval) => now.min(interval),
        None => now,
    }
}

/// The node of the service controller.
fn controller() -> NodeId
    ensures { result ≡ 0 }
{
    NodeId::numbered(0)
}

impl Fabric {
    /// The checkpoint before which a node has completed everything: at most its interval, and no open miss, put or
    /// transaction of its home was begun in an earlier interval.
    pub fn ready(&self, node: NodeId) -> Interval
        requires { node < length self.now.fabric.nodes }
        ensures { result ≡ ready_of self.now.fabric node }
    {
        let place = usize::from(node.number());
        let unit = &self.units[place];
        let now = unit.clock.now();
        let begun = self.homes[place].least_open();
        let issued = unit.cache.least_open();
        at_most(at_most(now, begun), issued)
    }

    /// A node tells the service controller what it is ready for.
    pub fn report(&mut self, node: NodeId) -> Answer
        requires here { node < length self.old.fabric.nodes }
        requires numbers { self.old.fabric.net.next_id ≤ 2 ^ 63 }
        ensures { IsAfter self.old self.new result (step_of_report self.old.fabric node) }
    {
        if self.is_full() {
            self.send_nothing();
            return Answer::NetFull;
        }
        let ready = self.ready(node);
        self.send_report(node, ready);
        Answer::Reported(ready)
    }

    /// Whether the network holds as many messages as it may.
    pub(super) fn is_full(&self) -> bool
        ensures { result ≡ is_full self.now.fabric 1 }
    {
        lacks_room(&self.net, 1)
    }

    fn send_report(&mut self, node: NodeId, ready: Interval)
        requires here { node < length self.old.fabric.nodes }
        requires numbers { self.old.fabric.net.next_id ≤ 2 ^ 63 }
        requires spare { is_full self.old.fabric 1 ≡ false }
        requires ready { ready ≡ ready_of self.old.fabric node }
        ensures { IsAfter self.old self.new (Reported ready) (step_of_report self.old.fabric node) }
    {
        // For the prover alone: the network holds no more than its bound.
        let _count = self.net.count();
        self.sent.clear();
        let unit = &self.units[usize::from(node.number())];
        let now = unit.clock.now();
        let out = Out {
            to: controller(),
            body: Body::Ready(ready),
        };
        let block = BlockNo::new(0);
        post(&mut self.net, &mut self.sent, node, now, block, &out);
    }
}
