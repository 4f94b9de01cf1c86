//! The numbers of a recovery point that is saved.
use route_plan::Dead;
use sn_base::{Interval, MsgId};

/// The recovery point, the number of the next message, how many events were applied, and the switches that are dead.
#[derive(Clone, Copy, PartialEq, Eq, Debug)]
pub struct Marks {
    pub point: Interval,
    pub next_id: MsgId,
    pub applied: u32,
    pub dead: Dead,
}
