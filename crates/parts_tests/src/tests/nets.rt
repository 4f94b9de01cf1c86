//! Messages on their way, as the rules give them.
ghost use Rattle.std.specs.Prelude.{◌≡◌, ◌<◌};

use super::is_so;
use sn_base::{BlockNo, NodeId, SwitchId};
use sn_msg::Body;
use std::process::Abort;
use std::test::Fail;
use switch_net::{HopAnswer, Net, TakeFault};

fn node(rt: &impl Abort, number: u8) -> NodeId
    ensures { result ≡ number }
{
    NodeId::new(number).expect(rt, "a node has a number below 16")
}

fn send_ready(rt: &impl Abort, net: &mut Net, from: NodeId, to: NodeId) -> bool
    requires sender { from < net.old.routes.nodes }
    requires receiver { to < net.old.routes.nodes }
    ensures { net.new.routes ≡ net.old.routes }
{
    is_so(rt, net.spare() > 0 && net.next_id() < u64::MAX);
    net.send(from, to, 0, BlockNo::new(0), Body::Ready(0))
}

fn place_of_first(rt: &impl Abort, net: &Net) -> (u64, SwitchId) {
    is_so(rt, net.count() > 0);
    let (message, at) = net.message(0);
    (message.id, at)
}

#[test]
fn a_message_goes_round_a_dead_switch_after_a_recovery(rt: HostRuntime) -> Result<(), Fail> {
    let (zero, one) = (node(&rt, 0), node(&rt, 1));
    let mut net = Net::new(rt.alloc(), 4)?;
    is_so(&rt, send_ready(&rt, &mut net, one, zero));
    is_so(&rt, place_of_first(&rt, &net) == (1, SwitchId::a(one)));
    is_so(&rt, net.kill(SwitchId::a(zero)));
    is_so(&rt, net.look_hop(1) == HopAnswer::LostInDead);
    is_so(&rt, net.hop(1) == HopAnswer::LostInDead);
    is_so(&rt, net.hop(1) == HopAnswer::NoMessage);
    is_so(&rt, !send_ready(&rt, &mut net, zero, zero));
    is_so(&rt, net.count() == 0 && net.next_id() == 3);
    is_so(&rt, net.recover() == Ok(0));
    is_so(&rt, send_ready(&rt, &mut net, one, zero));
    is_so(&rt, place_of_first(&rt, &net) == (3, SwitchId::b(one)));
    for _ in 0..5 {
        is_so(&rt, net.look(3) == Err(TakeFault::NotArrived));
        is_so(&rt, net.hop(3) == HopAnswer::Hopped);
    }
    is_so(&rt, net.hop(3) == HopAnswer::Arrived);
    is_so(&rt, place_of_first(&rt, &net) == (3, SwitchId::b(zero)));
    let Ok(message) = net.take(3) else {
        return Err(Fail::from("the message has arrived"));
    };
    is_so(
        &rt,
        message.id == 3 && message.from == one && message.to == zero,
    );
    Ok(())
}

#[test]
fn a_node_without_a_living_switch_refuses_a_recovery(rt: HostRuntime) -> Result<(), Fail> {
    let zero = node(&rt, 0);
    let mut net = Net::new(rt.alloc(), 4)?;
    is_so(&rt, net.cut_off() == None);
    is_so(&rt, send_ready(&rt, &mut net, zero, zero));
    is_so(
        &rt,
        net.kill(SwitchId::b(zero)) && !net.kill(SwitchId::b(zero)),
    );
    is_so(&rt, net.count() == 1);
    is_so(
        &rt,
        net.kill(SwitchId::a(zero)) && net.is_dead(SwitchId::a(zero)),
    );
    is_so(&rt, net.count() == 0);
    is_so(&rt, net.cut_off() == Some((zero, zero)));
    is_so(&rt, net.recover() == Err((zero, zero)));
    Ok(())
}

#[test]
fn a_message_is_lost_once(rt: HostRuntime) -> Result<(), Fail> {
    let (zero, one) = (node(&rt, 0), node(&rt, 1));
    let mut net = Net::new(rt.alloc(), 2)?;
    is_so(
        &rt,
        send_ready(&rt, &mut net, zero, one) && send_ready(&rt, &mut net, one, one),
    );
    is_so(&rt, net.take(1) == Err(TakeFault::NotArrived));
    is_so(&rt, net.look(2).is_ok() && net.lose(1) && !net.lose(1));
    is_so(&rt, net.take(1) == Err(TakeFault::NoMessage));
    is_so(
        &rt,
        net.look_hop(1) == HopAnswer::NoMessage && net.look_hop(2) == HopAnswer::Arrived,
    );
    is_so(&rt, net.recover() == Ok(1));
    is_so(&rt, net.spare() == 1024);
    Ok(())
}
