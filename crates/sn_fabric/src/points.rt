//! The recovery point rises.
ghost use Rattle.std.specs.Prelude.{◌≡◌, ◌+◌, ◌<◌, ◌≤◌, ◌^◌, true, false, ◌++◌, length, vec_capacity};
ghost use Rattle.sn_base.specs.declared.event.Answer.TheVariants.{Validated};
ghost use Rattle.sn_model.specs.Net.{net_after_sends, sent_by, is_full};
ghost use Rattle.sn_model.specs.PointEvents.{step_of_advance};
ghost use Rattle.fabric_bounds.specs.Coherent.{NothingUnfinished};
ghost use Rattle.sn_fabric.specs.Fabric.{IsAfter};
ghost use Rattle.sn_fabric.specs.Nets.{net_as};
ghost use Rattle.sn_fabric.specs.Points.{tellings};

use crate::Fabric;
use crate::sending::{lacks_room, post};
use sn_base::{Answer, BlockNo, Interval, NodeId};
use sn_model::{Out, Sent};
use sn_msg::Body;
use switch_net::Net;

/// Node 0 tells each node of a new recovery point, in order.
fn tell_all(net: &mut Net, sent: &mut Vec<Sent>, nodes: u8, tag: Interval, k: Interval)
    requires some { 1 ≤ nodes }
    requires few { nodes ≤ 16 }
    requires here { net.old.routes.nodes ≡ nodes }
    requires room { length net.old.flights + nodes ≤ 1024 }
    requires numbers { net.old.next + nodes < 2 ^ 64 }
    requires place { length sent.old.items + nodes ≤ vec_capacity sent.old }
    ensures net { net_as net.new ≡ net_after_sends net.old.routes (net_as net.old) 0 tag 0 (tellings k nodes) }
    ensures routes { net.new.routes ≡ net.old.routes }
    ensures sent { sent.new.items ≡ sent.old.items ++ sent_by net.old.routes (net_as net.old) 0 tag 0 (tellings k nodes) }
    ensures capacity { vec_capacity sent.old ≤ vec_capacity sent.new }
{
    let from = NodeId::numbered(0);
    let block = BlockNo::new(0);
    'nodes: for number in 0..nodes {
        let out = Out {
            to: NodeId::numbered(number),
            body: Body::Advance(k),
        };
        post(net, sent, from, tag, block, &out);
    }
}

impl Fabric {
    /// The recovery point rises to checkpoint k, and each node is told.
    pub fn advance(&mut self, k: Interval) -> Answer
        requires next { k ≡ self.old.fabric.point + 1 }
        requires finished { NothingUnfinished self.old.fabric k }
        requires numbers { self.old.fabric.net.next_id ≤ 2 ^ 63 }
        ensures { IsAfter self.old self.new result (step_of_advance self.old.fabric k) }
    {
        if self.lacks_room_for_all() {
            self.send_nothing();
            return Answer::NetFull;
        }
        self.raise_point(k);
        Answer::Validated(k)
    }

    /// Whether the network has no room for a message to each node.
    pub(super) fn lacks_room_for_all(&self) -> bool
        ensures { result ≡ is_full self.now.fabric (length self.now.fabric.nodes) }
    {
        lacks_room(&self.net, usize::from(self.config.nodes))
    }

    fn raise_point(&mut self, k: Interval)
        requires next { k ≡ self.old.fabric.point + 1 }
        requires finished { NothingUnfinished self.old.fabric k }
        requires numbers { self.old.fabric.net.next_id ≤ 2 ^ 63 }
        requires room { is_full self.old.fabric (length self.old.fabric.nodes) ≡ false }
        ensures { IsAfter self.old self.new (Validated k) (step_of_advance self.old.fabric k) }
    {
        self.sent.clear();
        self.point = k;
        let unit = &self.units[0];
        let now = unit.clock.now();
        tell_all(&mut self.net, &mut self.sent, self.config.nodes, now, k);
    }
}
