//! How far an event reaches.
ghost use Rattle.std.specs.Prelude.{◌≡◌, true};
ghost use Rattle.sn_base.specs.Events.{event_fits};
ghost use Rattle.sn_model.specs.Fabric.{Fabric};
ghost use Rattle.run_statistics.specs.Owned.{touched_lines, reach_of, reach_of_lines, AreThere, ReachesNodes};

use crate::owned::TouchedLines;
use sn_base::{Event, NodeId};

/// The nodes whose log, clocks or lines an event may change. No other node's greatest numbers need a look after it.
#[derive(Clone, Copy)]
pub enum Reach {
    Nobody,
    One(NodeId),
    Everybody,
}

/// Of a delivery.
pub(crate) fn reach_of_lines(lines: &Option<TouchedLines>) -> Reach
    ensures { result ≡ reach_of_lines lines.now }
{
    match lines {
        Some(lines) => Reach::One(lines.node),
        None => Reach::Nobody,
    }
}

/// Of an event that may touch these lines.
pub(crate) fn reach_of(event: &Event, lines: &Option<TouchedLines>) -> Reach
    ensures { (s : Fabric) → lines.now ≡ touched_lines s event.now → result ≡ reach_of s event.now }
{
    match event {
        Event::Step(node) => Reach::One(*node),
        Event::Evict(node, _) => Reach::One(*node),
        Event::Edge(node) => Reach::One(*node),
        Event::Deliver(_) => reach_of_lines(lines),
        Event::Recover => Reach::Everybody,
        _ => Reach::Nobody,
    }
}
