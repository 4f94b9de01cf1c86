//! What a node sends: into the network, and on the list of what a call sent.
ghost use Rattle.std.specs.Prelude.{◌≡◌, ◌+◌, ◌<◌, ◌≤◌, ◌^◌, nat_lt, ◌++◌, [], ◌∷◌, length, vec_capacity};
ghost use Rattle.sn_model.specs.Net.{net_after_sends, sent_by};
ghost use Rattle.switch_net.specs.Net.{IsNet};
ghost use Rattle.sn_fabric.specs.Nets.{net_as};

use sn_base::{BlockNo, Interval, MESSAGES, NodeId};
use sn_model::{Out, Sent};
use sn_msg::Message;
use switch_net::Net;

/// Whether so many more messages would be too many.
pub fn lacks_room(net: &Net, more: usize) -> bool
    requires { more ≤ 17 }
    ensures full { result ≡ nat_lt 1024 (length net.now.flights + more) }
    ensures sound { IsNet net.now }
{
    net.count() + more > MESSAGES
}

/// Sends a message from a node, about a block, with its interval, and puts it on the list.
pub fn post(
    net: &mut Net,
    sent: &mut Vec<Sent>,
    from: NodeId,
    tag: Interval,
    block: BlockNo,
    out: &Out,
)
    requires room { length net.old.flights < 1024 }
    requires numbers { net.old.next + 1 < 2 ^ 64 }
    requires sender { from < net.old.routes.nodes }
    requires receiver { out.now.to < net.old.routes.nodes }
    requires place { length sent.old.items < vec_capacity sent.old }
    ensures net { net_as net.new ≡ net_after_sends net.old.routes (net_as net.old) from tag block (out.now ∷ []) }
    ensures routes { net.new.routes ≡ net.old.routes }
    ensures sent { sent.new.items ≡ sent.old.items ++ sent_by net.old.routes (net_as net.old) from tag block (out.now ∷ []) }
    ensures capacity { vec_capacity sent.old ≤ vec_capacity sent.new }
    ensures count { length sent.new.items ≡ length sent.old.items + 1 }
    ensures flights { length net.new.flights ≤ length net.old.flights + 1 }
    ensures next { net.new.next ≡ net.old.next + 1 }
{
    let message = Message {
        id: net.next_id(),
        from,
        to: out.to,
        tag,
        block,
        body: out.body,
    };
    let arrives = net.post(&message);
    let last = Sent {
        message,
        lost: !arrives,
    };
    sent.push(last).unwrap();
}
