//! Turns under the lock's rules, with the events that the reference simulator finds due for these seeds.
ghost use Rattle.std.specs.Prelude.{◌≡◌, ◌<◌, [], IfOk};
ghost use Rattle.sn_console.specs.Ends.{bytes_passed};
ghost use Rattle.shared_machine.specs.Shared.{begins_with};

use shared_machine::{Finish, RunName, SharedMachine};
use sn_base::{Config, Event, Image, NodeId, Rules, Segment};
use sn_console::{Outbox, outbox};
use sn_driver::Driver;
use sn_machine::Machine;
use std::alloc::Global;
use std::marker::Brand;
use std::process::Abort;
use std::sync::ledger::Blank;
use std::test::Fail;

/// One node, whose program puts out a byte and exits.
fn shared(rt: &impl Abort, alloc: Global, budget: u32) -> Result<SharedMachine, Fail>
    ensures { IfOk result (λ s. s.machine.config.nodes ≡ 1) }
{
    assert!(rt; budget <= 1_000_000);
    let mut bytes = Vec::new(alloc);
    for word in [0x0410_0513u32, 0x0010_0893, 0x73, 0x05d0_0893, 0x73] {
        bytes.extend_from_slice(&word.to_le_bytes())?;
    }
    bytes.truncate(20);
    let mut segments = Vec::new(alloc);
    segments.push(Segment {
        start: 0x8000_0000,
        size: 20,
        bytes,
        write: false,
        exec: true,
    })?;
    let image = Image::new(segments, 0x8000_0000);
    let config = Config {
        nodes: 1,
        sets: 1,
        ways: 4,
        log: 256,
    };
    let rules = Rules {
        interval: 2,
        wait: 20_000,
        lose_every: 0,
        kill: None,
    };
    let machine = Machine::new(alloc, image, config)?;
    Ok(SharedMachine::new(alloc, machine, Driver::new(rules, 1), budget, 1)?)
}

/// The events of these turns, and why there is no further one.
fn turns<L: RunName>(
    rt: &impl Abort,
    shared: SharedMachine,
    outbox: Outbox,
    blank: Blank,
    expected: (&[Event], Finish),
)
    requires name { (blank.name ≡ L.name) × (blank.parts ≡ L.parts) × (blank.parts ≡ 1) }
    requires began { begins_with shared ≡ L.began }
    requires nodes { 0 < L.began.config.nodes }
    requires ring { L.of_ring outbox }
    requires passed { bytes_passed outbox ≡ [] }
{
    let (events, finish) = expected;
    let (book, mut all) = blank.open::<L>();
    let mut locked = shared.begin(book, outbox);
    locked.stop();
    assert!(rt; locked.turn(&mut all, 0) == Err(Finish::Stopped));
    locked.go_on();
    'events: for event in events {
        match locked.turn(&mut all, 0) {
            Ok((done, _)) => assert!(rt; done == *event),
            Err(_) => assert!(rt; false),
        }
    }
    assert!(rt; locked.turn(&mut all, 0) == Err(finish));
    assert!(rt; locked.journal().len() == events.len());
    assert!(rt; locked.audit(&mut all) == events.len() as u64);
    assert!(rt; locked.end().answers.len() == events.len());
}

#[test]
fn a_run_ends_once_its_program_is_over_or_its_budget_is_spent(rt: HostRuntime) -> Result<(), Fail> {
    let node = NodeId::new(0).expect(&rt, "a node");
    let events = [
        Event::Step(node),
        Event::Step(node),
        Event::Step(node),
        Event::Edge(node),
        Event::Step(node),
        Event::Report(node),
        Event::Deliver(1),
        Event::Validate,
        Event::Deliver(2),
        Event::Step(node),
        Event::Edge(node),
        Event::Edge(node),
        Event::Report(node),
        Event::Deliver(3),
        Event::Validate,
    ];
    for (budget, count, finish) in [(20, 15, Finish::Over), (3, 3, Finish::Budget)] {
        assert!(rt; count <= events.len());
        let run = shared(&rt, rt.alloc(), budget)?;
        let (outbox, _inbox) = outbox(rt.alloc(), 8)?;
        turns::<Brand>(&rt, run, outbox, Blank::new(1), (&events[..count], finish));
    }
    Ok(())
}
