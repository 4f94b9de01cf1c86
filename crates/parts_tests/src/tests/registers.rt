//! Checkpoints of a core, kept by their numbers.
use super::is_so;
use reg_ckpt::*;
use rv_core::{CoreState, End};
use sn_base::BlockNo;
use std::test::Fail;

fn core(pc: u32) -> CoreState {
    CoreState {
        pc,
        x: [3; 32],
        reservation: Some(BlockNo::new(64)),
        end: End::Running,
    }
}

#[test]
fn checkpoints_are_kept_by_their_numbers(rt: HostRuntime) -> Result<(), Fail> {
    let mut kept = RegCheckpoints::new(rt.alloc(), core(0))?;
    kept.take(1, core(4));
    kept.take(2, core(8));
    kept.take(3, core(12));
    kept.take(4, core(16));
    is_so(&rt, kept.get(0).pc == 0);
    is_so(
        &rt,
        kept.get(1).pc == 4 && kept.get(1).reservation.is_none(),
    );
    kept.free_below(1);
    kept.take(5, core(20));
    is_so(&rt, kept.get(1).pc == 4);
    kept.drop_above(2);
    is_so(&rt, (kept.get(2).pc, kept.get(2).x[31]) == (8, 3));
    kept.take(3, core(24));
    kept.free_below(3);
    is_so(&rt, kept.get(3).pc == 24);
    Ok(())
}

#[test]
fn checkpoints_begin_at_the_point(rt: HostRuntime) -> Result<(), Fail> {
    let mut kept = RegCheckpoints::at(rt.alloc(), 7, core(28))?;
    is_so(
        &rt,
        kept.get(7).pc == 28 && kept.get(7).reservation.is_none(),
    );
    kept.take(8, core(32));
    kept.free_below(8);
    is_so(&rt, kept.get(8).pc == 32);
    Ok(())
}
