//! The recovery point moves once every node is ready.
use super::is_so;
use sn_base::NodeId;
use validation::*;

#[test]
fn the_point_moves_once_every_node_is_ready(rt: HostRuntime) {
    let mut controller = Controller::new(2);
    let first = NodeId::new(0).unwrap();
    let second = NodeId::new(1).unwrap();
    let behind = |node, reported| Err(NotReady { node, reported });
    is_so(&rt, controller.check() == behind(first, 0));
    controller.ready(first, 2);
    controller.ready(first, 1);
    is_so(&rt, controller.advance() == behind(second, 0));
    controller.ready(second, 1);
    is_so(&rt, controller.check() == Ok(1));
    is_so(&rt, controller.point() == 0);
    is_so(&rt, controller.advance() == Ok(1));
    is_so(&rt, controller.check() == behind(second, 1));
    controller.reset();
    is_so(&rt, controller.check() == behind(first, 1));
    is_so(&rt, controller.point() == 1);
    is_so(&rt, controller.reported() == [1, 1].as_slice());
}

#[test]
fn a_controller_goes_on_from_its_point(rt: HostRuntime) {
    let mut controller = Controller::at(2, 7);
    let first = NodeId::new(0).unwrap();
    let second = NodeId::new(1).unwrap();
    let behind = |node, reported| Err(NotReady { node, reported });
    is_so(&rt, controller.point() == 7);
    controller.ready(second, 8);
    is_so(&rt, controller.check() == behind(first, 7));
    controller.ready(first, 8);
    is_so(&rt, controller.advance() == Ok(8));
}
