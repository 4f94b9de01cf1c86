//! Edges of a clock, and how far it may be ahead.
use super::is_so;
use ckpt_clock::*;

#[test]
fn four_checkpoints_may_stand_above_the_known_point(rt: HostRuntime) {
    let mut clock = Clock::start();
    is_so(&rt, clock.edge() == Ok(1));
    is_so(&rt, clock.edge() == Ok(2));
    is_so(&rt, clock.edge() == Ok(3));
    is_so(&rt, clock.edge() == Ok(4));
    is_so(&rt, clock.edge() == Err(CheckpointsFull));
    is_so(&rt, clock.now() == 4);
    clock.learn(2);
    clock.learn(1);
    is_so(&rt, clock.known() == 2);
    is_so(&rt, !clock.held(4) && clock.held(5));
    clock.back_to(2);
    is_so(&rt, clock.now() == 2);
    is_so(&rt, clock.edge() == Ok(3));
}
