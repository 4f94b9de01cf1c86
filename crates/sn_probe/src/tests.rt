//! Probes are told in order, read by their places, and dropped once.
ghost use Rattle.std.specs.Prelude.{ℕ, List, [], ◌∷◌};
ghost use Rattle.sn_probe.specs.Probes.{meters_of, AreFresh};

use crate::{EventTally, Probe, ProbeSet};
use sn_base::{Answer, BlockNo, Event, NodeId, SwitchId, Undo};
use std::alloc::{AllocError, Global};
use std::sync::Arc;
use std::sync::atomic::{AtomicU64, Ordering};
use std::test::Fail;

/// Has no number. It writes its own digit behind those that others wrote, and counts its drop.
struct Witness {
    digit: u64,
    written: Arc<AtomicU64, Global>,
    drops: Arc<AtomicU64, Global>,
}

impl Drop for Witness {
    fn drop(self) {
        let Witness {
            digit: _,
            written: _,
            drops,
        } = self;
        drops.fetch_add(1, Ordering::SeqCst);
    }
}

impl Probe for Witness {
    ghost first = { λ _. [] };

    ghost tally = { λ _. [] };

    ghost step = { λ _ tally number event answer. tally };

    fn told(&mut self, _number: u64, _event: &Event, _answer: &Answer) {
        let before = self.written.load(Ordering::SeqCst);
        let after = before.wrapping_mul(10).wrapping_add(self.digit);
        self.written.store(after, Ordering::SeqCst);
    }

    fn line(&self, _place: usize) -> Option<u64> {
        None
    }
}

/// Has the number of the last event that it was told.
#[derive(Drop)]
struct LastNumber {
    number: u64,
}

impl Probe for LastNumber {
    ghost first = { λ _. 0 ∷ [] };

    ghost tally = { λ p. p.number ∷ [] };

    ghost step = { λ _ tally number event answer. number ∷ [] };

    fn told(&mut self, number: u64, _event: &Event, _answer: &Answer) {
        self.number = number;
    }

    fn line(&self, place: usize) -> Option<u64> {
        if place == 0 { Some(self.number) } else { None }
    }
}

/// What witnesses left behind: the digits that they wrote, and how many were dropped before and after their set was.
#[derive(Clone, Copy, PartialEq, Eq, Debug)]
struct Seen {
    digits: u64,
    before: u64,
    after: u64,
}

/// Tells one event to so many witnesses, and drops them.
fn seen_of(alloc: Global, probes: u64) -> Result<Seen, AllocError> {
    let written = Arc::new(alloc, AtomicU64::new(0))?;
    let drops = Arc::new(alloc, AtomicU64::new(0))?;
    let mut boxes: Vec<Box<dyn Probe + Send>> = Vec::new(alloc);
    for probe in 0..probes {
        let witness = Witness {
            digit: probe + 1,
            written: Arc::try_clone(&written)?,
            drops: Arc::try_clone(&drops)?,
        };
        boxes.push(Box::new(alloc, witness)?)?;
    }
    let mut set = ProbeSet::new(boxes);
    set.told(1, &Event::Validate, &Answer::Validated(1));
    let before = drops.load(Ordering::SeqCst);
    drop(set);
    Ok(Seen {
        digits: written.load(Ordering::SeqCst),
        before,
        after: drops.load(Ordering::SeqCst),
    })
}

#[test]
fn each_probe_is_told_once_in_order_and_dropped_once(rt: HostRuntime) -> Result<(), Fail> {
    for (probes, digits) in [(0, 0), (1, 1), (3, 123), (9, 123_456_789)] {
        let seen = Seen {
            digits,
            before: 0,
            after: probes,
        };
        assert_eq!(rt; seen_of(rt.alloc(), probes)?, seen);
    }
    assert_eq!(rt; seen_of(rt.alloc(), 100)?.after, 100);
    Ok(())
}

/// A set of probes that were told nothing yet.
fn fresh_set(boxes: Vec<Box<dyn Probe + Send>>) -> ProbeSet
    requires { AreFresh (meters_of first tally step boxes.items) }
{
    ProbeSet::new(boxes)
}

#[test]
fn a_set_reads_each_probe_by_its_place(rt: HostRuntime) -> Result<(), Fail> {
    let alloc = rt.alloc();
    let mut boxes: Vec<Box<dyn Probe + Send>> = Vec::new(alloc);
    boxes.push(Box::new(alloc, EventTally::new())?)?;
    boxes.push(Box::new(alloc, LastNumber { number: 0 })?)?;
    let mut set = fresh_set(boxes);
    set.told(7, &Event::Validate, &Answer::Validated(1));
    set.told(
        8,
        &Event::Recover,
        &Answer::Recovered(Undo {
            to: 1,
            undone: 0,
            dropped: 0,
        }),
    );
    assert_eq!(rt; set.count(), 2);
    assert_eq!(rt;
        (set.line(0, 8), set.line(0, 9), set.line(0, 10)),
        (Some(1), Some(1), None)
    );
    assert_eq!(rt; (set.line(1, 0), set.line(1, 1)), (Some(8), None));
    Ok(())
}

/// An event, and the place of its kind.
type Row = (Event, usize);

#[test]
fn each_kind_but_input_has_its_place(rt: HostRuntime) -> Result<(), Fail> {
    let node = NodeId::new(3).unwrap();
    let block = BlockNo::of(0x8000_1000).unwrap();
    let switch = SwitchId::b(node);
    let rows: [Row; 10] = [
        (Event::Step(node), 0),
        (Event::Evict(node, block), 1),
        (Event::Edge(node), 2),
        (Event::Hop(1), 3),
        (Event::Deliver(1), 4),
        (Event::Lose(1), 5),
        (Event::Kill(switch), 6),
        (Event::Report(node), 7),
        (Event::Validate, 8),
        (Event::Recover, 9),
    ];
    for (event, place) in rows {
        let mut tally = EventTally::new();
        tally.told(1, &Event::Input(node, b'a'), &Answer::Given);
        tally.told(2, &event, &Answer::NoMessage);
        for other in 0..10 {
            let count = if other == place { 1 } else { 0 };
            assert_eq!(rt; tally.line(other), Some(count));
        }
        assert_eq!(rt; tally.line(10), None);
    }
    Ok(())
}

#[test]
fn a_count_stops_at_the_greatest_number(rt: HostRuntime) {
    let mut tally = EventTally::with_count(9, u64::MAX - 1);
    for number in [1, 2] {
        tally.told(number, &Event::Recover, &Answer::NoMessage);
        assert_eq!(rt; tally.line(9), Some(u64::MAX));
    }
}
