//! What a delivery does to the network: it takes the message out, and sends what a cache or a home replies.
ghost use Rattle.std.specs.Prelude.{◌≡◌, ◌+◌, ◌<◌, ◌≤◌, ◌^◌, ◌++◌, [], length, vec_capacity, Some, IsSome};
ghost use Rattle.std.specs.Option.{option_map};
ghost use Rattle.switch_net.specs.Net.{find_flight, without};
ghost use Rattle.sn_model.specs.Net.{net_after_sends, sent_by};
ghost use Rattle.sn_fabric.specs.Deliveries.{out_of, lost_by, outs_of, invalidation, invalidations_of, home_outs, GoTo};
ghost use Rattle.sn_fabric.specs.Nets.{net_as};

use crate::sending::post;
use home_directory::HomeStep;
use mosi_cache::CacheStep;
use sn_base::{BlockNo, Interval, MsgId, NodeId, NodeSet};
use sn_model::{News, Out, Sent};
use sn_msg::{Body, Message};
use switch_net::Net;

/// What every delivery begins with: the list is empty, and the message leaves the network.
pub fn take_out(net: &mut Net, sent: &mut Vec<Sent>, id: MsgId) -> Message
    requires { IsSome (find_flight net.old.flights id) }
    ensures message { option_map (λ f. f.message) (find_flight net.old.flights id) ≡ Some result }
    ensures net { net.new ≡ record net.old { flights = without net.old.flights id } }
    ensures sent { sent.new.items ≡ [] }
    ensures capacity { vec_capacity sent.old ≤ vec_capacity sent.new }
{
    sent.clear();
    net.take_out(id)
}

/// What a cache sends.
pub fn out_of(step: &CacheStep) -> Option<Out>
    ensures { result ≡ out_of step.now }
{
    match step {
        CacheStep::Took(out, _) => *out,
        CacheStep::LogFull => None,
    }
}

/// What the layer above hears of a cache's step.
pub fn lost_by(node: NodeId, step: &CacheStep) -> Option<News>
    ensures { result ≡ lost_by node step.now }
{
    match step {
        CacheStep::Took(_, Some(block)) => Some(News::LostCopy(node, *block)),
        _ => None,
    }
}

/// An `Inv` that names r to a node, where it is one of the set.
fn invalidation(set: NodeSet, r: NodeId, to: NodeId) -> Option<Out>
    ensures { result ≡ invalidation set r to }
{
    if set.has(to) {
        Some(Out {
            to,
            body: Body::Inv(r),
        })
    } else {
        None
    }
}

/// Sends a message, where there is one.
pub fn post_one(
    net: &mut Net,
    sent: &mut Vec<Sent>,
    from: NodeId,
    tag: Interval,
    block: BlockNo,
    out: Option<Out>,
)
    requires room { length net.old.flights + length (outs_of out) ≤ 1024 }
    requires numbers { net.old.next + 1 < 2 ^ 64 }
    requires sender { from < net.old.routes.nodes }
    requires receivers { GoTo (outs_of out) net.old.routes.nodes }
    requires place { length sent.old.items < vec_capacity sent.old }
    ensures net { net_as net.new ≡ net_after_sends net.old.routes (net_as net.old) from tag block (outs_of out) }
    ensures routes { net.new.routes ≡ net.old.routes }
    ensures sent { sent.new.items ≡ sent.old.items ++ sent_by net.old.routes (net_as net.old) from tag block (outs_of out) }
    ensures capacity { vec_capacity sent.old ≤ vec_capacity sent.new }
    ensures count { length sent.new.items ≤ length sent.old.items + 1 }
    ensures flights { length net.new.flights ≤ length net.old.flights + length (outs_of out) }
    ensures next { net.new.next ≤ net.old.next + 1 }
{
    match &out {
        Some(out) => post(net, sent, from, tag, block, out),
        None => {}
    }
}

/// Sends an `Inv` that names r to each node of the set, in order.
fn post_invalidations(
    net: &mut Net,
    sent: &mut Vec<Sent>,
    from: NodeId,
    tag: Interval,
    block: BlockNo,
    set: NodeSet,
    r: NodeId,
)
    requires room { length net.old.flights + length (invalidations_of set r) ≤ 1024 }
    requires numbers { net.old.next + 16 < 2 ^ 64 }
    requires sender { from < net.old.routes.nodes }
    requires receivers { GoTo (invalidations_of set r) net.old.routes.nodes }
    requires place { length sent.old.items + 16 ≤ vec_capacity sent.old }
    ensures net { net_as net.new ≡ net_after_sends net.old.routes (net_as net.old) from tag block (invalidations_of set r) }
    ensures routes { net.new.routes ≡ net.old.routes }
    ensures sent { sent.new.items ≡ sent.old.items ++ sent_by net.old.routes (net_as net.old) from tag block (invalidations_of set r) }
    ensures capacity { vec_capacity sent.old ≤ vec_capacity sent.new }
{
    'nodes: for number in 0..16 {
        let out = invalidation(set, r, NodeId::numbered(number));
        post_one(net, sent, from, tag, block, out);
    }
}

/// Sends what a home's step says: the first message, if any, and then the `Inv`s.
pub fn post_step(
    net: &mut Net,
    sent: &mut Vec<Sent>,
    from: NodeId,
    tag: Interval,
    block: BlockNo,
    step: HomeStep,
)
    requires room { length net.old.flights + length (home_outs step) ≤ 1024 }
    requires numbers { net.old.next + 17 < 2 ^ 64 }
    requires sender { from < net.old.routes.nodes }
    requires receivers { GoTo (home_outs step) net.old.routes.nodes }
    requires place { length sent.old.items + 17 ≤ vec_capacity sent.old }
    ensures net { net_as net.new ≡ net_after_sends net.old.routes (net_as net.old) from tag block (home_outs step) }
    ensures routes { net.new.routes ≡ net.old.routes }
    ensures sent { sent.new.items ≡ sent.old.items ++ sent_by net.old.routes (net_as net.old) from tag block (home_outs step) }
    ensures capacity { vec_capacity sent.old ≤ vec_capacity sent.new }
{
    match step {
        HomeStep::Took(out, set, r) => {
            post_one(net, sent, from, tag, block, out);
            post_invalidations(net, sent, from, tag, block, set, r);
        }
        HomeStep::HomeBusy | HomeStep::LogFull => {}
    }
}
